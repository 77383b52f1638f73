// The variables of a GLOBAL list as a table.

ghost use Rattle.std.specs.Prelude.{◌≡◌, ◌||◌, map, IfOk};
ghost use Rattle.spv_logic.specs.declared.names.names.Symbol.{Symbol as Plain};
ghost use Rattle.spv_program.specs.declared.types.Item.TheVariants.{Variable};
ghost use Rattle.spv_program.specs.Types.{same_item};
ghost use Rattle.spv_program.specs.typed.ProgramViews.{global_of};
ghost use Rattle.spv_typing.specs.RoutineWalk.{is_listed};
ghost use Rattle.spv_heading_typing.specs.Names.{has};

use spv_logic::list::List;
use spv_program::Item;
use spv_program::ordered_map::Named;
use spv_program::typed::GlobalItem;
use std::alloc::{AllocError, Global};

// One item more.
#[tactic(auto, using(crate::proofs::Listing::variable_there, crate::proofs::Listing::variable_put, crate::proofs::Listing::class_listed))]
fn with_item(mut listed: Named<bool>, item: GlobalItem) -> Result<Named<bool>, AllocError>
    ensures { IfOk result (λ l. (x : Plain) → has l x ≡ (has listed x || same_item item.item (Variable x))) }
{
    match item.item {
        Item::Variable(x) => {
            if listed.has(x) {
                return Ok(listed);
            }
            listed.insert(x, item.is_var)?;
            Ok(listed)
        }
        Item::Class(_) => Ok(listed),
    }
}

/// The variables among the items.
pub(crate) fn listed(alloc: Global, globals: &List<GlobalItem>) -> Result<Named<bool>, AllocError>
    ensures { IfOk result (λ l. (x : Plain) → has l x ≡ is_listed (map global_of globals.now) x) }
{
    let mut listed = Named::new(alloc);
    for item in globals.as_slice() {
        listed = with_item(listed, *item)?;
    }
    Ok(listed)
}
