// Local declarations.

ghost use Rattle.std.specs.Prelude.{◌≡◌, IfOk, IfErr, Ok};
ghost use Rattle.spv_typing.specs.Outcomes.{each};
ghost use Rattle.spv_typing.specs.RoutineWalk as spec;
ghost use Rattle.spv_environments.specs.Answers.{Stops};
ghost use Rattle.spv_routine_typing.specs.local_typing.Locals.{const_by, vars_by, locals_by, local_of, no_locals, IsHeaded};

use crate::local_typing::places::{
    Local, constant_in, is_free, new_locals, put_constant, put_variables, type_in,
};
use spv_declaration_typing::canonical_types::settle;
use spv_environments::{Known, Own};
use spv_logic::list::List;
use spv_logic::names::Symbol;
use spv_program::ordered_map::Named;
use spv_tree::syntax::{Const, Locals, Vars};
use spv_typing::TypeFault;
use std::alloc::Global;

fn constant(
    known: &Known,
    alloc: Global,
    routine: Symbol,
    listed: &Named<bool>,
    local: Local,
    tree: &Const,
) -> Result<Local, TypeFault>
    ensures ok { IfOk result (λ l. const_by routine listed.now (local_of known.now local) tree.now ≡ Ok (local_of known.now l)) }
    ensures err { IfErr result (λ e. Stops e (const_by routine listed.now (local_of known.now local) tree.now)) }
{
    let name = tree.name;
    if !is_free(known, alloc, routine, listed, &local.own, name.symbol) {
        return Err(TypeFault::DeclaredTwice(name.line, name.symbol));
    }
    let z = constant_in(known, alloc, &local.own, &tree.value)?;
    Ok(put_constant(local, name.symbol, z)?)
}

fn variables(
    known: &mut Known,
    alloc: Global,
    routine: Symbol,
    listed: &Named<bool>,
    local: Local,
    tree: &Vars,
) -> Result<Local, TypeFault>
    ensures ok { IfOk result (λ l. vars_by routine listed.now (local_of known.old local) tree.now ≡ Ok (local_of known.new l)) }
    ensures err { IfErr result (λ e. Stops e (vars_by routine listed.now (local_of known.old local) tree.now)) }
{
    let names = new_locals(known, alloc, routine, listed, &local.own, &tree.names)?;
    let read = type_in(known, alloc, &local.own, &tree.of)?;
    let t = settle(known, alloc, read)?;
    Ok(put_variables(local, &names, t)?)
}

// The constants, in order.
fn constants(
    known: &Known,
    alloc: Global,
    routine: Symbol,
    own: Named<Own>,
    listed: &Named<bool>,
    items: &[Const],
) -> Result<Local, TypeFault>
    ensures ok { IfOk result (λ l. each (const_by routine listed.now) (no_locals known.now own) items.now ≡ Ok (local_of known.now l)) }
    ensures err { IfErr result (λ e. Stops e (each (const_by routine listed.now) (no_locals known.now own) items.now)) }
{
    let mut local = Local {
        own,
        variables: List::new(alloc),
    };
    for item in items {
        local = constant(known, alloc, routine, listed, local, item)?;
    }
    Ok(local)
}

// The variables, in order.
fn all_variables(
    known: &mut Known,
    alloc: Global,
    routine: Symbol,
    listed: &Named<bool>,
    begun: Local,
    items: &[Vars],
) -> Result<Local, TypeFault>
    ensures ok { IfOk result (λ l. each (vars_by routine listed.now) (local_of known.old begun) items.now ≡ Ok (local_of known.new l)) }
    ensures err { IfErr result (λ e. Stops e (each (vars_by routine listed.now) (local_of known.old begun) items.now)) }
{
    let mut local = begun;
    for item in items {
        local = variables(known, alloc, routine, listed, local, item)?;
    }
    Ok(local)
}

// Constants, then variables.
fn in_order(
    known: &mut Known,
    alloc: Global,
    routine: Symbol,
    own: Named<Own>,
    listed: &Named<bool>,
    tree: &Locals,
) -> Result<Local, TypeFault>
    ensures ok { IfOk result (λ l. locals_by routine listed.now known.old own tree.now ≡ Ok (local_of known.new l)) }
    ensures err { IfErr result (λ e. Stops e (locals_by routine listed.now known.old own tree.now)) }
{
    let begun = constants(
        known,
        alloc,
        routine,
        own,
        listed,
        tree.constants.as_slice(),
    )?;
    all_variables(
        known,
        alloc,
        routine,
        listed,
        begun,
        tree.variables.as_slice(),
    )
}

/// The local declarations of a routine of this name, whose heading gave it these names and whose GLOBAL list has these variables.
/// Types that they are built of are put among those of the program. After a fault nothing is known of it.
pub fn locals(
    known: &mut Known,
    alloc: Global,
    name: Symbol,
    own: Named<Own>,
    listed: &Named<bool>,
    tree: &Locals,
) -> Result<Local, TypeFault>
    ensures ok { IfOk result (λ l. (h : spec.Headed) → IsHeaded h name own listed.now → spec.locals_walk known.old h tree.now ≡ Ok (local_of known.new l)) }
    ensures err { IfErr result (λ e. (h : spec.Headed) → IsHeaded h name own listed.now → Stops e (spec.locals_walk known.old h tree.now)) }
{
    in_order(known, alloc, name, own, listed, tree)
}
