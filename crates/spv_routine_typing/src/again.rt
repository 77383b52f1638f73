// The names of routines whose headings came before their bodies.

ghost use Rattle.std.specs.Prelude.{◌≡◌, ◌∷◌, ◌++◌, [], IfErr, IfOk, None, OnOk, map};
ghost use Rattle.spv_typing.specs.declared.faults.TypeFault.TheVariants.{Memory};
ghost use Rattle.spv_typing.specs.Known.{named};
ghost use Rattle.spv_typing.specs.RoutineWalk as spec;
ghost use Rattle.spv_typing.specs.Known as known;
ghost use Rattle.spv_typing.specs.ProgramWalk as walk;
ghost use Rattle.spv_environments.specs.Scopes.{own_of, scope_of};
ghost use Rattle.spv_routine_typing.specs.Again.{own_of_formal, own_of_start, names_again};

use spv_environments::{Known, Meaning, Own, Scope, Specified};
use spv_logic::Sort;
use spv_logic::list::List;
use spv_logic::names::Symbol;
use spv_program::Item;
use spv_program::ordered_map::Named;
use spv_program::typed::Formal;
use spv_tree::syntax::{Clauses, HeadingForm};
use spv_typing::TypeFault;
use std::alloc::Global;

/// Whether a second heading has a name alone, and is of the same kind.
pub(crate) fn is_bare_form(is_function: bool, form: &HeadingForm) -> bool
    ensures { result ≡ walk.is_bare_form is_function form.now }
{
    if is_function {
        match form {
            HeadingForm::Function(_, None, None) => true,
            HeadingForm::Function(_, _, _) => false,
            HeadingForm::Procedure(_, _) => false,
        }
    } else {
        match form {
            HeadingForm::Procedure(_, None) => true,
            HeadingForm::Procedure(_, Some(_)) => false,
            HeadingForm::Function(_, _, _) => false,
        }
    }
}

/// Whether a heading has no clauses.
pub(crate) fn is_bare(clauses: &Clauses) -> bool
    ensures { result ≡ walk.is_bare clauses.now }
{
    !clauses.globals.is_some()
        && !clauses.initial.is_some()
        && !clauses.entry.is_some()
        && !clauses.exit.is_some()
}

// One name more. No name comes twice, since the heading was read; a table has no room for one that does.
fn put(own: &mut Named<Own>, name: Symbol, meant: Own) -> Result<(), TypeFault>
    ensures ok { OnOk result (own.new ≡ own.old ++ (name, meant) ∷ []) }
    ensures err { IfErr result (λ e. e ≡ Memory) }
{
    if own.has(name) {
        return Err(TypeFault::Memory);
    }
    own.insert(name, meant)?;
    Ok(())
}

// The names of parameters.
fn parameter_names(alloc: Global, formals: &[Formal]) -> Result<Named<Own>, TypeFault>
    ensures ok { IfOk result (λ own. own ≡ map own_of_formal formals.now) }
    ensures err { IfErr result (λ e. e ≡ Memory) }
{
    let mut own = Named::new(alloc);
    for formal in formals {
        put(&mut own, formal.name, Own::Place(formal.of))?;
    }
    Ok(own)
}

// The sort of the values of a variable.
fn place_sort(scope: &Scope<'_, '_>, x: Symbol) -> Sort
    ensures { result ≡ spec.place_sort (scope_of scope.now) (known.meaning (scope_of scope.now) x) }
{
    let known = scope.known;
    match scope.meaning(x) {
        Some(Meaning::Place(t)) => known.sort_of(t),
        Some(Meaning::Type(_)) => Sort::Int,
        Some(Meaning::List) => Sort::Int,
        Some(Meaning::Constant(_)) => Sort::Int,
        Some(Meaning::Start(_)) => Sort::Int,
        Some(Meaning::Declared(_, _)) => Sort::Int,
        Some(Meaning::Routine(_, _)) => Sort::Int,
        None => Sort::Int,
    }
}

// The sort of the values of an item, in a routine with these parameters.
fn item_sort(known: &Known, alloc: Global, parameters: &Named<Own>, item: Item) -> Sort
    ensures { result ≡ spec.item_sort (spec.in_routine known.now (named own_of parameters.now) None) item }
{
    let none = Named::new(alloc);
    let scope = Scope {
        known,
        parameters: &none,
        result: None,
        own: parameters,
        routine: None,
    };
    match item {
        Item::Variable(x) => place_sort(&scope, x),
        Item::Class(t) => Sort::Class(t),
    }
}

// The INITIAL names behind the parameters.
fn with_starts(
    known: &Known,
    alloc: Global,
    parameters: &Named<Own>,
    mut own: Named<Own>,
    starts: &List<(Symbol, Item)>,
) -> Result<Named<Own>, TypeFault>
    ensures ok { IfOk result (λ all. all ≡ own ++ map (own_of_start known.now parameters.now) starts.now) }
    ensures err { IfErr result (λ e. e ≡ Memory) }
{
    for start in starts.as_slice() {
        let (name, item) = *start;
        let sort = item_sort(known, alloc, parameters, item);
        put(&mut own, name, Own::Start(sort))?;
    }
    Ok(own)
}

/// The names that a heading gave its routine.
#[tactic(auto, using(crate::proofs::Naming::named_again))]
pub(crate) fn heading_names(
    known: &Known,
    alloc: Global,
    specified: &Specified,
) -> Result<Named<Own>, TypeFault>
    ensures ok { IfOk result (λ own. named own_of own ≡ names_again known.now specified.now) }
    ensures err { IfErr result (λ e. e ≡ Memory) }
{
    let parameters = parameter_names(alloc, specified.heading.formals.as_slice())?;
    let own = parameter_names(alloc, specified.heading.formals.as_slice())?;
    with_starts(known, alloc, &parameters, own, &specified.initial)
}
