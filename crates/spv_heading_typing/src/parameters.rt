// The parameters of a routine.

ghost use Rattle.std.specs.Prelude.{◌≡◌, ◌++◌, false, map, IfOk, IfErr, Ok, OnOk, Some};
ghost use Rattle.std.specs.List.{list_any};
ghost use Rattle.spv_typing.specs.RoutineWalk as spec;
ghost use Rattle.spv_environments.specs.Answers.{Stops};
ghost use Rattle.spv_heading_typing.specs.Names.{symbols_of, has};
ghost use Rattle.spv_heading_typing.specs.Parameters.{IsPlaces, parameters_of, formals_named, group_of, names_walk, type_walk, variables_walk};

use crate::finding::type_named;
use crate::names::RoutineNames;
use spv_declaration_typing::type_typing::new_names;
use spv_environments::{Known, Own, Scope};
use spv_logic::TypeId;
use spv_logic::list::List;
use spv_logic::names::Symbol;
use spv_program::ordered_map::Named;
use spv_program::typed::Formal;
use spv_tree::syntax::{Group, GroupForm, Name, Params, Several};
use spv_typing::TypeFault;
use std::alloc::{AllocError, Global};

/// The parameters of a routine.
#[derive(Drop)]
pub struct Parameters {
    /// In order.
    pub formals: List<Formal>,
    /// What their names stand for in the routine.
    pub own: Named<Own>,
    /// The names of those with VAR.
    pub places: Named<u32>,
}

// Parameters of one group, behind the others.
fn push_formals(
    formals: &mut List<Formal>,
    names: &Named<u32>,
    of: TypeId,
    by_place: bool,
    line: u32,
) -> Result<(), AllocError>
    ensures { OnOk result (formals.new ≡ formals.old ++ formals_named names.now of by_place line) }
{
    for place in 0..names.len() {
        let Some((name, _)) = names.entry(place) else {
            break;
        };
        formals.push(Formal {
            name,
            of,
            by_place,
            line,
        })?;
    }
    Ok(())
}

// The names of parameters with VAR, with those of a group.
fn more_places(
    places: Named<u32>,
    names: &Named<u32>,
    by_place: bool,
) -> Result<Named<u32>, AllocError>
    requires { list_any (λ e. has places e.0) names.now ≡ false }
    ensures { IfOk result (λ p. p ≡ places ++ group_of by_place names.now) }
{
    if !by_place {
        return Ok(places);
    }
    let mut more = places;
    more.put_copies(names)?;
    Ok(more)
}

// The parameters with those of a further group.
#[tactic(auto, using(crate::proofs::Params::group_put, crate::proofs::Params::places_kept, crate::proofs::Params::not_among_places))]
fn with_group(
    parameters: Parameters,
    names: &Named<u32>,
    of: TypeId,
    by_place: bool,
    line: u32,
) -> Result<Parameters, AllocError>
    requires new { list_any (λ e. has parameters.own e.0) names.now ≡ false }
    requires places { IsPlaces parameters }
    ensures ok { IfOk result (λ p. parameters_of p ≡ spec.with_group (parameters_of parameters) (symbols_of names.now) of by_place line) }
    ensures places { IfOk result IsPlaces }
{
    let Parameters {
        mut formals,
        mut own,
        places,
    } = parameters;
    push_formals(&mut formals, names, of, by_place, line)?;
    own.put_names(names, Own::Place(of))?;
    let places = more_places(places, names, by_place)?;
    Ok(Parameters {
        formals,
        own,
        places,
    })
}

// The names of a group of variables.
fn group_names(
    known: &Known,
    alloc: Global,
    routine: Symbol,
    own: &Named<Own>,
    tree: &Several<Name>,
) -> Result<Named<u32>, TypeFault>
    ensures ok { IfOk result (λ n. names_walk known.now routine own.now tree.now ≡ Ok (symbols_of n)) }
    ensures err { IfErr result (λ e. Stops e (names_walk known.now routine own.now tree.now)) }
    ensures new { IfOk result (λ n. list_any (λ e. has own.now e.0) n ≡ false) }
{
    let none = Named::new(alloc);
    let unlisted = Named::new(alloc);
    let names = RoutineNames {
        known,
        routine,
        listed: &unlisted,
        parameters: &none,
        own,
    };
    new_names(&names, alloc, tree)
}

// The type of a name in a heading with these parameters.
pub(crate) fn type_in(
    known: &Known,
    alloc: Global,
    own: &Named<Own>,
    of: Name,
) -> Result<TypeId, TypeFault>
    ensures ok { IfOk result (λ t. type_walk known.now own.now of ≡ Ok t) }
    ensures err { IfErr result (λ e. Stops e (type_walk known.now own.now of)) }
{
    let none = Named::new(alloc);
    let scope = Scope {
        known,
        parameters: &none,
        result: None,
        own,
        routine: None,
    };
    type_named(&scope, of)
}

// A group of variables, with VAR or without.
fn variables(
    known: &Known,
    alloc: Global,
    routine: Symbol,
    parameters: Parameters,
    line: u32,
    by_place: bool,
    tree: &Several<Name>,
    of: Name,
) -> Result<Parameters, TypeFault>
    requires { IsPlaces parameters }
    ensures ok { IfOk result (λ p. variables_walk known.now routine (parameters_of parameters) line by_place tree.now of ≡ Ok (parameters_of p)) }
    ensures err { IfErr result (λ e. Stops e (variables_walk known.now routine (parameters_of parameters) line by_place tree.now of)) }
    ensures places { IfOk result IsPlaces }
{
    let new = group_names(known, alloc, routine, &parameters.own, tree)?;
    let t = type_in(known, alloc, &parameters.own, of)?;
    Ok(with_group(parameters, &new, t, by_place, line)?)
}

// One group.
fn group(
    known: &Known,
    alloc: Global,
    routine: Symbol,
    parameters: Parameters,
    tree: &Group,
) -> Result<Parameters, TypeFault>
    requires { IsPlaces parameters }
    ensures ok { IfOk result (λ p. spec.group_walk known.now routine (parameters_of parameters) tree.now ≡ Ok (parameters_of p)) }
    ensures err { IfErr result (λ e. Stops e (spec.group_walk known.now routine (parameters_of parameters) tree.now)) }
    ensures places { IfOk result IsPlaces }
{
    match &tree.form {
        GroupForm::Variables(by_place, names, of) => variables(
            known, alloc, routine, parameters, tree.line, *by_place, names, *of,
        ),
        GroupForm::Procedures(names) => {
            Err(TypeFault::ProcParameter(tree.line, names.first.symbol))
        }
        GroupForm::Functions(names, _) => {
            Err(TypeFault::ProcParameter(tree.line, names.first.symbol))
        }
    }
}

// The groups, in order.
#[tactic(auto, using(crate::proofs::Params::no_places))]
fn groups(
    known: &Known,
    alloc: Global,
    routine: Symbol,
    tree: &Params,
) -> Result<Parameters, TypeFault>
    ensures ok { IfOk result (λ p. spec.params_walk known.now routine (Some tree.now) ≡ Ok (parameters_of p)) }
    ensures err { IfErr result (λ e. Stops e (spec.params_walk known.now routine (Some tree.now))) }
    ensures places { IfOk result IsPlaces }
{
    let none = Parameters {
        formals: List::new(alloc),
        own: Named::new(alloc),
        places: Named::new(alloc),
    };
    let mut parameters = group(known, alloc, routine, none, &tree.groups.first)?;
    for one in tree.groups.more.as_slice() {
        parameters = group(known, alloc, routine, parameters, one)?;
    }
    Ok(parameters)
}

#[tactic(auto, using(crate::proofs::Params::no_places))]
/// The parameters of a heading, in order, each name free in the routine so far.
pub(crate) fn all_parameters(
    known: &Known,
    alloc: Global,
    routine: Symbol,
    tree: &Option<Params>,
) -> Result<Parameters, TypeFault>
    ensures ok { IfOk result (λ p. spec.params_walk known.now routine tree.now ≡ Ok (parameters_of p)) }
    ensures err { IfErr result (λ e. Stops e (spec.params_walk known.now routine tree.now)) }
    ensures places { IfOk result IsPlaces }
{
    match tree {
        Some(params) => groups(known, alloc, routine, params),
        None => Ok(Parameters {
            formals: List::new(alloc),
            own: Named::new(alloc),
            places: Named::new(alloc),
        }),
    }
}
