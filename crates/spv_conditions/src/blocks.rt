// The conditions before the body of a routine, or the main block.

ghost use Rattle.std.specs.Prelude.{◌≡◌, IsTrue};
ghost use Rattle.spv_program.specs.Programs.{routine_in};
ghost use Rattle.spv_program.specs.Typing.{statement_ok};
ghost use Rattle.spv_meaning.specs.Before as meaning;
ghost use Rattle.spv_assign.specs.Conditions.{AreIn};
ghost use Rattle.spv_assign.specs.supply.Numbers.{supply_of};
ghost use Rattle.spv_flow_parts.specs.Walks.{Comes, made_of};
ghost use Rattle.spv_flow_parts.specs.calls.Arguments.{MayMake};
ghost use Rattle.spv_conditions.specs.Making.{events};

use crate::leaves::ProgramLeaves;
use spv_assign::Pending;
use spv_assign::creation_trace::GenFault;
use spv_assign::supply::Supply;
use spv_flow::before;
use spv_flow_parts::{Body, IndexedProgram};
use spv_program::typed::Statement;
use spv_term::Terms;

/// The conditions before a well typed body, where these stand behind it.
pub(crate) fn before_body(
    program: &IndexedProgram<'_>,
    body: &Body<'_>,
    terms: &mut Terms,
    supply: &mut Supply,
    s: &Statement,
    rest: Pending,
) -> Result<Pending, GenFault>
    requires may { MayMake program.now body.now terms.old (supply_of supply.old) }
    requires typed { IsTrue (statement_ok program.now (routine_in program.now body.now.here) s.now) }
    requires rest { AreIn terms.old rest.items }
    ensures { Comes result (meaning.before program.now body.now.here s.now (made_of terms.old rest.items (supply_of supply.old)))
        (events program.now body.now.here s.now (made_of terms.old rest.items (supply_of supply.old))) terms.old terms.new (supply_of supply.new) }
{
    let mut leaves = ProgramLeaves;
    before(&mut leaves, program, body, terms, supply, s, rest)
}
