// How a condition's heading names its routine.

ghost use Rattle.std.specs.Prelude.{◌≡◌};
ghost use Rattle.spv_reports.specs.Headings as spec;

use crate::report::ProgramNames;
use spv_logic::names::{Names, Symbol};
use spv_term::RoutineId;

// The text of a name; nothing where the table does not have it.
fn name_text(names: &Names, x: Symbol) -> &[u8]
    ensures { result.now ≡ spec.name_text names.now x }
{
    if (x.0 as usize) < names.len() {
        names.text(x)
    } else {
        b""
    }
}

/// The name of the routine that a condition is of, and for the main block a word of its own.
pub fn routine_name(named: &ProgramNames, routine: Option<RoutineId>) -> &[u8]
    ensures { result.now ≡ spec.routine_text named.now routine }
{
    let Some(id) = routine else {
        return b"MAIN";
    };
    match named.routines.as_slice().get(id.0 as usize) {
        Some(name) => name_text(&named.names, *name),
        None => b"",
    }
}
