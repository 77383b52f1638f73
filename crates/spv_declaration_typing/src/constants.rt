// CONST.

ghost use Rattle.std.specs.Prelude.{◌≡◌, Ok, IfOk, IfErr, OnOk};
ghost use Rattle.spv_typing.specs.Outcomes.{each};
ghost use Rattle.spv_typing.specs.Known.{at_top};
ghost use Rattle.spv_typing.specs.TypeWalk as types;
ghost use Rattle.spv_typing.specs.DeclarationWalk as spec;
ghost use Rattle.spv_environments.specs.Answers.{Stops};

use crate::type_typing::constant;
use spv_environments::{Known, Own, Scope};
use spv_program::ordered_map::Named;
use spv_tree::syntax::{Const, Constant};
use spv_typing::TypeFault;
use std::alloc::Global;

fn constant_at_top(known: &Known, alloc: Global, tree: &Constant) -> Result<i64, TypeFault>
    ensures ok { IfOk result (λ z. types.constant (at_top known.now) tree.now ≡ Ok z) }
    ensures err { IfErr result (λ e. Stops e (types.constant (at_top known.now) tree.now)) }
{
    let own: Named<Own> = Named::new(alloc);
    let scope = Scope {
        known,
        parameters: &own,
        result: None,
        own: &own,
        routine: None,
    };
    constant(&scope, tree)
}

#[tactic(auto, using(spv_environments::proofs::Free::no_constant))]
fn const_walk(known: &mut Known, alloc: Global, tree: &Const) -> Result<(), TypeFault>
    ensures ok { OnOk result (spec.const_walk known.old tree.now ≡ Ok known.new) }
    ensures err { IfErr result (λ e. Stops e (spec.const_walk known.old tree.now)) }
{
    let name = tree.name;
    if !known.is_free(name.symbol) {
        return Err(TypeFault::DeclaredTwice(name.line, name.symbol));
    }
    let z = constant_at_top(known, alloc, &tree.value)?;
    known.add_constant(name.symbol, z)?;
    Ok(())
}

/// The constants of a CONST part.
pub fn const_part(known: &mut Known, alloc: Global, items: &[Const]) -> Result<(), TypeFault>
    ensures ok { OnOk result (each spec.const_walk known.old items.now ≡ Ok known.new) }
    ensures err { IfErr result (λ e. Stops e (each spec.const_walk known.old items.now)) }
{
    for item in items {
        const_walk(known, alloc, item)?;
    }
    Ok(())
}
