// The clauses of a heading.

ghost use Rattle.std.specs.Prelude.{◌≡◌, ◌++◌, IfOk, IfErr, Ok, option_map};
ghost use Rattle.spv_program.specs.typed.FormulaViews.{annotation_of};
ghost use Rattle.spv_typing.specs.Outcomes.{if_there};
ghost use Rattle.spv_typing.specs.FormulaWalk.{annotation as annotation_walk};
ghost use Rattle.spv_environments.specs.Answers.{Stops};
ghost use Rattle.spv_environments.specs.Scopes.{scope_of};
ghost use Rattle.spv_heading_typing.specs.Parameters.{IsPlaces};
ghost use Rattle.spv_heading_typing.specs.Starts.{starts_of, AreApart};
ghost use Rattle.spv_heading_typing.specs.Clauses.{clauses_of, clauses_in, entry_in, exit_in, annotations_in};

use crate::globals::globals;
use crate::parameters::Parameters;
use crate::shared::Shared;
use crate::starts::{Starts, all_starts};
use spv_annotation_typing::annotation;
use spv_environments::{Known, Own, Scope};
use spv_logic::TypeId;
use spv_logic::list::List;
use spv_logic::names::Symbol;
use spv_program::Item;
use spv_program::ordered_map::Named;
use spv_program::typed::Annotation;
use spv_tree::syntax::Formula;
use spv_typing::TypeFault;
use std::alloc::{AllocError, Global};

/// What the clauses of a heading say.
#[derive(Drop)]
pub struct Clauses {
    /// The items of its GLOBAL list.
    pub globals: Shared,
    /// Its INITIAL names, in order, with what they are the values of.
    pub initial: List<(Symbol, Item)>,
    /// The names of its parameters and its INITIAL names.
    pub own: Named<Own>,
    /// ENTRY, where there is one.
    pub entry: Option<Annotation>,
    /// EXIT, where there is one.
    pub exit: Option<Annotation>,
}

// The annotation that may be there.
fn annotation_there(
    scope: &Scope<'_, '_>,
    alloc: Global,
    tree: &Option<Formula>,
) -> Result<Option<Annotation>, TypeFault>
    ensures ok { IfOk result (λ a. if_there (annotation_walk (scope_of scope.now)) tree.now ≡ Ok (option_map annotation_of a)) }
    ensures err { IfErr result (λ e. Stops e (if_there (annotation_walk (scope_of scope.now)) tree.now)) }
{
    match tree {
        Some(formula) => Ok(Some(annotation(scope, alloc, formula)?)),
        None => Ok(None),
    }
}

// ENTRY, which sees the parameters.
fn entry(
    known: &Known,
    alloc: Global,
    parameters: &Parameters,
    tree: &Option<Formula>,
) -> Result<Option<Annotation>, TypeFault>
    ensures ok { IfOk result (λ a. entry_in known.now parameters.now tree.now ≡ Ok (option_map annotation_of a)) }
    ensures err { IfErr result (λ e. Stops e (entry_in known.now parameters.now tree.now)) }
{
    let none = Named::new(alloc);
    let scope = Scope {
        known,
        parameters: &none,
        result: None,
        own: &parameters.own,
        routine: None,
    };
    annotation_there(&scope, alloc, tree)
}

// EXIT, which sees the INITIAL names too, and a function's name for its result.
fn exit(
    known: &Known,
    alloc: Global,
    parameters: &Parameters,
    routine: Symbol,
    of: Option<TypeId>,
    starts: &Starts,
    tree: &Option<Formula>,
) -> Result<Option<Annotation>, TypeFault>
    ensures ok { IfOk result (λ a. exit_in known.now parameters.now routine of (starts_of starts.now) tree.now ≡ Ok (option_map annotation_of a)) }
    ensures err { IfErr result (λ e. Stops e (exit_in known.now parameters.now routine of (starts_of starts.now) tree.now)) }
{
    let result = match of {
        Some(t) => Some((routine, t)),
        None => None,
    };
    let scope = Scope {
        known,
        parameters: &parameters.own,
        result,
        own: &starts.own,
        routine: None,
    };
    annotation_there(&scope, alloc, tree)
}

// ENTRY and EXIT.
fn annotations(
    known: &Known,
    alloc: Global,
    routine: Symbol,
    parameters: &Parameters,
    of: Option<TypeId>,
    starts: &Starts,
    tree: &spv_tree::syntax::Clauses,
) -> Result<(Option<Annotation>, Option<Annotation>), TypeFault>
    ensures ok { IfOk result (λ p. annotations_in known.now routine parameters.now of (starts_of starts.now) tree.now ≡ Ok (option_map annotation_of p.0, option_map annotation_of p.1)) }
    ensures err { IfErr result (λ e. Stops e (annotations_in known.now routine parameters.now of (starts_of starts.now) tree.now)) }
{
    let entry = entry(known, alloc, parameters, &tree.entry)?;
    let exit = exit(known, alloc, parameters, routine, of, starts, &tree.exit)?;
    Ok((entry, exit))
}

// The parameters and INITIAL names together.
#[tactic(auto, using(crate::proofs::Items::nothing_taken))]
fn joined(alloc: Global, parameters: &Parameters, starts: &Starts) -> Result<Named<Own>, AllocError>
    requires { AreApart parameters.now starts.now }
    ensures { IfOk result (λ own. own ≡ parameters.now.own ++ starts.now.own) }
{
    let mut own = Named::new(alloc);
    own.put_copies(&parameters.own)?;
    own.put_copies(&starts.own)?;
    Ok(own)
}

#[tactic(auto, using(crate::proofs::Items::named_joined))]
/// The clauses of a heading with these parameters, in order.
pub(crate) fn all_clauses(
    known: &Known,
    alloc: Global,
    routine: Symbol,
    parameters: &Parameters,
    of: Option<TypeId>,
    tree: &spv_tree::syntax::Clauses,
) -> Result<Clauses, TypeFault>
    requires { IsPlaces parameters.now }
    ensures ok { IfOk result (λ c. clauses_in known.now routine parameters.now of tree.now ≡ Ok (clauses_of c)) }
    ensures err { IfErr result (λ e. Stops e (clauses_in known.now routine parameters.now of tree.now)) }
{
    let globals = globals(known, &parameters.own, alloc, &tree.globals)?;
    let starts = all_starts(known, alloc, routine, parameters, &globals, &tree.initial)?;
    let own = joined(alloc, parameters, &starts)?;
    let (entry, exit) = annotations(known, alloc, routine, parameters, of, &starts, tree)?;
    Ok(Clauses {
        globals,
        initial: starts.initial,
        own,
        entry,
        exit,
    })
}
