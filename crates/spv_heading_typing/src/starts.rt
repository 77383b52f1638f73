// INITIAL names.

ghost use Rattle.std.specs.Prelude.{◌≡◌, [], ◌∷◌, ◌++◌, true, false, IfOk, IfErr, Ok, Some, None};
ghost use Rattle.spv_program.specs.Lists.{found};
ghost use Rattle.spv_typing.specs.Known.{OfPlace, meaning, named};
ghost use Rattle.spv_typing.specs.RoutineWalk as spec;
ghost use Rattle.spv_environments.specs.Answers.{Stops};
ghost use Rattle.spv_environments.specs.Scopes.{own_of};
ghost use Rattle.spv_environments.specs.declared.scopes.Own.TheVariants as kind;
ghost use Rattle.spv_heading_typing.specs.Names.{has};
ghost use Rattle.spv_heading_typing.specs.Parameters.{IsPlaces, parameters_of};
ghost use Rattle.spv_heading_typing.specs.Starts.{starts_of, initial_in, one_start, start_in, initial_walk, AreApart};

use crate::finding::{class_item, variable_item};
use crate::names::RoutineNames;
use crate::parameters::Parameters;
use crate::shared::Shared;
use spv_declaration_typing::type_typing::Free;
use spv_environments::{Known, Own, Scope};
use spv_logic::list::List;
use spv_logic::names::Symbol;
use spv_logic::{Sort, TypeId};
use spv_program::Item;
use spv_program::ordered_map::Named;
use spv_tree::syntax::{Name, NameOrClass, Several, Start};
use spv_typing::TypeFault;
use std::alloc::{AllocError, Global};

/// The INITIAL names so far.
#[derive(Drop)]
pub struct Starts {
    /// In order, with what they are the values of.
    pub initial: List<(Symbol, Item)>,
    /// What they stand for in the routine.
    pub own: Named<Own>,
}

// The type of the variable or parameter of this name.
#[tactic(auto, using(crate::proofs::Items::no_variable))]
fn place_type(
    known: &Known,
    alloc: Global,
    own: &Named<Own>,
    line: u32,
    x: Name,
) -> Result<TypeId, TypeFault>
    ensures ok { IfOk result (λ t. meaning (spec.in_routine known.now (named own_of own.now) None) x.symbol ≡ Some (OfPlace t)) }
    ensures err { IfErr result (λ e. Stops e (spec.variable_named line x (meaning (spec.in_routine known.now (named own_of own.now) None) x.symbol))) }
{
    let none = Named::new(alloc);
    let scope = Scope {
        known,
        parameters: &none,
        result: None,
        own,
        routine: None,
    };
    variable_item(line, x, scope.meaning(x.symbol))
}

// What an INITIAL name is the value of: an item, and the sort of its value.
#[tactic(auto, using(crate::proofs::Items::variable_begins, crate::proofs::Items::no_beginning, crate::proofs::Items::class_begins, crate::proofs::Items::no_class))]
fn initial_item(
    known: &Known,
    alloc: Global,
    own: &Named<Own>,
    line: u32,
    form: NameOrClass,
) -> Result<(Item, Sort), TypeFault>
    ensures ok { IfOk result (λ r. initial_in known.now own.now line form ≡ Ok (r.0, r.1)) }
    ensures err { IfErr result (λ e. Stops e (initial_in known.now own.now line form)) }
{
    match form {
        NameOrClass::Name(x) => {
            let t = place_type(known, alloc, own, line, x)?;
            Ok((Item::Variable(x.symbol), known.sort_of(t)))
        }
        NameOrClass::Class(x) => {
            let t = class_item(known, line, x)?;
            Ok((Item::Class(t), Sort::Class(t)))
        }
    }
}

// Whether an INITIAL name may be of an item: a parameter with VAR, or an item of a VAR group of the GLOBAL list.
#[tactic(auto, using(crate::proofs::Items::variable_may))]
fn may_be_initial(parameters: &Parameters, shared: &Shared, item: Item) -> bool
    requires { IsPlaces parameters.now }
    ensures { result ≡ spec.may_be_initial (parameters_of parameters.now).formals shared.now item }
{
    match item {
        Item::Variable(x) => parameters.places.has(x) || shared.may_change(item),
        Item::Class(_) => shared.may_change(item),
    }
}

// Whether an INITIAL name may be this.
fn is_free(
    known: &Known,
    routine: Symbol,
    parameters: &Parameters,
    shared: &Shared,
    starts: &Starts,
    x: Symbol,
) -> bool
    ensures free { result ≡ spec.is_free_in known.now.start routine shared.now (named own_of parameters.now.own ++ named own_of starts.now.own) x }
    ensures new { result ≡ true → found starts.now.own x ≡ None }
    ensures apart { result ≡ true → has parameters.now.own x ≡ false }
{
    let names = RoutineNames {
        known,
        routine,
        listed: shared.variables(),
        parameters: &parameters.own,
        own: &starts.own,
    };
    names.is_free(x)
}

// One INITIAL name more.
fn put_start(starts: Starts, name: Symbol, item: Item, of: Sort) -> Result<Starts, AllocError>
    requires { found starts.own name ≡ None }
    ensures starts { IfOk result (λ s. starts_of s ≡ one_start (starts_of starts) name item of) }
    ensures own { IfOk result (λ s. s.own ≡ starts.own ++ (name, kind.Start of) ∷ []) }
{
    let Starts {
        mut initial,
        mut own,
    } = starts;
    initial.push((name, item))?;
    own.insert(name, Own::Start(of))?;
    Ok(Starts { initial, own })
}

// What one INITIAL name adds to those before it.
#[tactic(auto, using(crate::proofs::Items::one_apart))]
fn with_start(
    known: &Known,
    alloc: Global,
    routine: Symbol,
    parameters: &Parameters,
    shared: &Shared,
    starts: Starts,
    tree: &Start,
) -> Result<Starts, TypeFault>
    requires places { IsPlaces parameters.now }
    requires apart { AreApart parameters.now starts }
    ensures ok { IfOk result (λ s. start_in known.now routine parameters.now shared.now (starts_of starts) tree.now ≡ Ok (starts_of s)) }
    ensures err { IfErr result (λ e. Stops e (start_in known.now routine parameters.now shared.now (starts_of starts) tree.now)) }
    ensures apart { IfOk result (AreApart parameters.now) }
{
    let line = tree.item.line;
    let (item, of) = initial_item(known, alloc, &parameters.own, line, tree.item.form)?;
    let name = tree.name;
    if !is_free(known, routine, parameters, shared, &starts, name.symbol) {
        return Err(TypeFault::DeclaredTwice(name.line, name.symbol));
    }
    if !may_be_initial(parameters, shared, item) {
        return Err(TypeFault::WrongType(line));
    }
    Ok(put_start(starts, name.symbol, item, of)?)
}

// The INITIAL names, in order.
#[tactic(auto, using(crate::proofs::Items::none_apart))]
fn several(
    known: &Known,
    alloc: Global,
    routine: Symbol,
    parameters: &Parameters,
    shared: &Shared,
    tree: &Several<Start>,
) -> Result<Starts, TypeFault>
    requires { IsPlaces parameters.now }
    ensures ok { IfOk result (λ s. initial_walk known.now routine parameters.now shared.now (Some tree.now) ≡ Ok (starts_of s)) }
    ensures err { IfErr result (λ e. Stops e (initial_walk known.now routine parameters.now shared.now (Some tree.now))) }
    ensures apart { IfOk result (AreApart parameters.now) }
{
    let none = Starts {
        initial: List::new(alloc),
        own: Named::new(alloc),
    };
    let mut starts = with_start(known, alloc, routine, parameters, shared, none, &tree.first)?;
    for start in tree.more.as_slice() {
        starts = with_start(known, alloc, routine, parameters, shared, starts, start)?;
    }
    Ok(starts)
}

#[tactic(auto, using(crate::proofs::Items::none_apart))]
/// The INITIAL names of a routine with these parameters and this GLOBAL list, in order.
pub(crate) fn all_starts(
    known: &Known,
    alloc: Global,
    routine: Symbol,
    parameters: &Parameters,
    shared: &Shared,
    tree: &Option<Several<Start>>,
) -> Result<Starts, TypeFault>
    requires { IsPlaces parameters.now }
    ensures ok { IfOk result (λ s. initial_walk known.now routine parameters.now shared.now tree.now ≡ Ok (starts_of s)) }
    ensures err { IfErr result (λ e. Stops e (initial_walk known.now routine parameters.now shared.now tree.now)) }
    ensures apart { IfOk result (AreApart parameters.now) }
{
    match tree {
        Some(starts) => several(known, alloc, routine, parameters, shared, starts),
        None => Ok(Starts {
            initial: List::new(alloc),
            own: Named::new(alloc),
        }),
    }
}
