// The names that a routine has.

ghost use Rattle.std.specs.Prelude.{◌≡◌, [], ◌∷◌, ◌++◌, true, false, is_some, map, IfOk, IfErr, Ok, OnOk, None};
ghost use Rattle.std.specs.List.{list_any};
ghost use Rattle.spv_program.specs.Lists.{found};
ghost use Rattle.spv_typing.specs.Known.{named, Known as KnownText};
ghost use Rattle.spv_typing.specs.Outcomes.{each};
ghost use Rattle.spv_typing.specs.TypeWalk.{all_names, constant as constant_walk};
ghost use Rattle.spv_typing.specs.DeclarationWalk.{new_name, type_walk};
ghost use Rattle.spv_typing.specs.RoutineWalk.{in_routine};
ghost use Rattle.spv_environments.specs.Answers.{Stops};
ghost use Rattle.spv_environments.specs.Scopes.{own_of};
ghost use Rattle.spv_declaration_typing.specs.canonical_types.Types.{settled};
ghost use Rattle.spv_routine_typing.specs.local_typing.Locals.{free_among, names_of, with_constant, with_variables, local_of};

use spv_declaration_typing::canonical_types::{NewType, read_type};
use spv_declaration_typing::type_typing::{Free, constant, new_names};
use spv_environments::{Known, Own, Scope};
use spv_heading_typing::RoutineNames;
use spv_logic::TypeId;
use spv_logic::list::List;
use spv_logic::names::Symbol;
use spv_program::ordered_map::Named;
use spv_tree::syntax::{Constant, Name, Several, TypeDenoter};
use spv_typing::TypeFault;
use std::alloc::{AllocError, Global};

/// The names of a routine with its local declarations.
#[derive(Drop)]
pub struct Local {
    /// What its names stand for.
    pub own: Named<Own>,
    /// Its local variables, in order, with their types.
    pub variables: List<(Symbol, TypeId)>,
}

// Whether a further name of the routine may be this.
pub(crate) fn is_free(
    known: &Known,
    alloc: Global,
    routine: Symbol,
    listed: &Named<bool>,
    own: &Named<Own>,
    x: Symbol,
) -> bool
    ensures free { result ≡ free_among known.now.start routine listed.now (named own_of own.now) x }
    ensures new { result ≡ true → found own.now x ≡ None }
{
    let none = Named::new(alloc);
    let names = RoutineNames {
        known,
        routine,
        listed,
        parameters: &none,
        own,
    };
    names.is_free(x)
}

// The names of further local variables.
pub(crate) fn new_locals(
    known: &Known,
    alloc: Global,
    routine: Symbol,
    listed: &Named<bool>,
    own: &Named<Own>,
    tree: &Several<Name>,
) -> Result<Named<u32>, TypeFault>
    ensures ok { IfOk result (λ n. each (new_name (free_among known.now.start routine listed.now (named own_of own.now))) [] (all_names tree.now) ≡ Ok (names_of n)) }
    ensures err { IfErr result (λ e. Stops e (each (new_name (free_among known.now.start routine listed.now (named own_of own.now))) [] (all_names tree.now))) }
    ensures new { IfOk result (λ n. list_any (λ e. is_some (found own.now e.0)) n ≡ false) }
{
    let none = Named::new(alloc);
    let names = RoutineNames {
        known,
        routine,
        listed,
        parameters: &none,
        own,
    };
    new_names(&names, alloc, tree)
}

// The number of a constant, where these names are seen.
pub(crate) fn constant_in(
    known: &Known,
    alloc: Global,
    own: &Named<Own>,
    tree: &Constant,
) -> Result<i64, TypeFault>
    ensures ok { IfOk result (λ z. constant_walk (in_routine known.now (named own_of own.now) None) tree.now ≡ Ok z) }
    ensures err { IfErr result (λ e. Stops e (constant_walk (in_routine known.now (named own_of own.now) None) tree.now)) }
{
    let none = Named::new(alloc);
    let scope = Scope {
        known,
        parameters: &none,
        result: None,
        own,
        routine: None,
    };
    constant(&scope, tree)
}

// The type that is written, where these names are seen.
pub(crate) fn type_in(
    known: &Known,
    alloc: Global,
    own: &Named<Own>,
    tree: &TypeDenoter,
) -> Result<NewType, TypeFault>
    ensures ok { IfOk result (λ n. type_walk (in_routine known.now (named own_of own.now) None) tree.now ≡ Ok (settled known.now n)) }
    ensures err { IfErr result (λ e. Stops e (type_walk (in_routine known.now (named own_of own.now) None) tree.now)) }
{
    let none = Named::new(alloc);
    let scope = Scope {
        known,
        parameters: &none,
        result: None,
        own,
        routine: None,
    };
    read_type(&scope, alloc, tree)
}

// A constant more.
pub(crate) fn put_constant(local: Local, x: Symbol, z: i64) -> Result<Local, AllocError>
    requires { found local.own x ≡ None }
    ensures { IfOk result (λ l. (k : KnownText) → local_of k l ≡ with_constant (local_of k local) x z) }
{
    let Local { mut own, variables } = local;
    own.insert(x, Own::Constant(z))?;
    Ok(Local { own, variables })
}

// Variables of one type, behind others.
fn push_variables(
    variables: &mut List<(Symbol, TypeId)>,
    names: &Named<u32>,
    t: TypeId,
) -> Result<(), AllocError>
    ensures { OnOk result (variables.new ≡ variables.old ++ map (λ e. (e.0, t)) names.now) }
{
    for place in 0..names.len() {
        let Some((name, _)) = names.entry(place) else {
            break;
        };
        variables.push((name, t))?;
    }
    Ok(())
}

// Variables of one type more.
pub(crate) fn put_variables(
    local: Local,
    names: &Named<u32>,
    t: TypeId,
) -> Result<Local, AllocError>
    requires { list_any (λ e. is_some (found local.own e.0)) names.now ≡ false }
    ensures { IfOk result (λ l. (k : KnownText) → local_of k l ≡ with_variables (local_of k local) (names_of names.now) t) }
{
    let Local {
        mut own,
        mut variables,
    } = local;
    push_variables(&mut variables, names, t)?;
    own.put_names(names, Own::Place(t))?;
    Ok(Local { own, variables })
}
