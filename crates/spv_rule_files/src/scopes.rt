// What rules see of the variables of their file.

ghost use Rattle.std.specs.Prelude.{◌≡◌, IfOk};
ghost use Rattle.spv_rule_files.specs.Starts.{starts_of};

use spv_environments::Own;
use spv_logic::Sort;
use spv_program::ordered_map::Named;
use std::alloc::{AllocError, Global};

// Each variable as a name that stands for something of its sort.
pub(crate) fn starts(alloc: Global, vars: &Named<Sort>) -> Result<Named<Own>, AllocError>
    ensures { IfOk result (λ o. o ≡ starts_of vars.now) }
{
    let mut own = Named::new(alloc);
    for place in 0..vars.len() {
        let (x, sort) = vars.entry(place).unwrap();
        own.insert(x, Own::Start(*sort))?;
    }
    Ok(own)
}
