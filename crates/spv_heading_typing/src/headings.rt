// Headings with their clauses.

ghost use Rattle.std.specs.Prelude.{◌≡◌, [], true, None, map, IfOk, IfErr, Ok, OnOk};
ghost use Rattle.spv_program.specs.typed.ProgramViews.{formal_of};
ghost use Rattle.spv_typing.specs.Known.{is_free, named};
ghost use Rattle.spv_typing.specs.RoutineWalk as spec;
ghost use Rattle.spv_environments.specs.Answers.{Stops};
ghost use Rattle.spv_environments.specs.Scopes.{own_of};
ghost use Rattle.spv_heading_typing.specs.Parameters.{IsPlaces, parameters_of};
ghost use Rattle.spv_heading_typing.specs.Headings.{announced, headed_of, headed_with, IsListed, parameters_walk, rest_walk, procedure_walk, function_walk};
ghost use Rattle.spv_heading_typing.specs.Clauses.{clauses_of};

use crate::clauses::{Clauses, all_clauses};
use crate::finding::may_be_result;
use crate::parameters::{Parameters, all_parameters, type_in};
use spv_environments::{Formals, Heading, Known, Own, Specified};
use spv_logic::list::List;
use spv_logic::names::Symbol;
use spv_logic::{RoutineId, TypeId};
use spv_program::ordered_map::Named;
use spv_program::typed::Formal;
use spv_tree::syntax::{HeadingForm, Name, Params};
use spv_typing::TypeFault;
use std::alloc::{AllocError, Global};

/// A heading with its clauses, and the names that it gives its routine.
#[derive(Drop)]
pub struct Headed {
    /// The heading with its clauses.
    pub specified: Specified,
    /// What the parameters and the INITIAL names stand for in the routine.
    pub own: Named<Own>,
    /// The variables among the items of its GLOBAL list.
    pub listed: Named<bool>,
}

/// What is written in front of a heading's clauses, but for its parameters and its result.
#[derive(Clone, Copy)]
pub struct Title {
    /// The name of the routine.
    pub name: Symbol,
    /// The line of the heading.
    pub line: u32,
    /// Whether it is a function.
    pub is_function: bool,
    /// Its number among the routines with a body.
    pub number: RoutineId,
}

// A copy of parameters, for a heading.
fn copied(alloc: Global, formals: &List<Formal>) -> Result<Formals, AllocError>
    ensures { IfOk result (λ copy. copy ≡ formals.now) }
{
    Formals::from_slice(alloc, formals.as_slice())
}

// What is known of a routine while its heading is read.
fn announce(
    known: &mut Known,
    alloc: Global,
    title: Title,
    formals: Formals,
    of: Option<TypeId>,
) -> Result<(), AllocError>
    requires { is_free known.old title.name ≡ true }
    ensures { OnOk result (known.new ≡ spec.with_heading known.old (announced title formals of)) }
{
    known.announce(
        title.name,
        Heading {
            line: title.line,
            is_function: title.is_function,
            number: title.number,
            formals,
            result: of,
            globals: List::new(alloc),
        },
    )
}

// A heading with what its clauses say.
fn with_all(title: Title, formals: Formals, of: Option<TypeId>, clauses: Clauses) -> Headed
    ensures value { headed_of title.name result ≡ headed_with title (map formal_of formals) of (clauses_of clauses) }
    ensures listed { IsListed result }
{
    let (globals, listed) = clauses.globals.into_parts();
    Headed {
        specified: Specified {
            heading: Heading {
                line: title.line,
                is_function: title.is_function,
                number: title.number,
                formals,
                result: of,
                globals,
            },
            initial: clauses.initial,
            entry: clauses.entry,
            exit: clauses.exit,
        },
        own: clauses.own,
        listed,
    }
}

// The clauses of a heading whose parameters and result were read.
fn with_clauses(
    known: &mut Known,
    alloc: Global,
    title: Title,
    parameters: Parameters,
    of: Option<TypeId>,
    tree: &spv_tree::syntax::Clauses,
) -> Result<Headed, TypeFault>
    requires free { is_free known.old title.name ≡ true }
    requires places { IsPlaces parameters }
    ensures ok { IfOk result (λ h. rest_walk known.old title (parameters_of parameters) of tree.now ≡ Ok (headed_of title.name h)) }
    ensures err { IfErr result (λ e. Stops e (rest_walk known.old title (parameters_of parameters) of tree.now)) }
    ensures known { OnOk result (known.new ≡ known.old) }
    ensures listed { IfOk result IsListed }
{
    let early = copied(alloc, &parameters.formals)?;
    let formals = copied(alloc, &parameters.formals)?;
    announce(known, alloc, title, early, of)?;
    let clauses = all_clauses(known, alloc, title.name, &parameters, of, tree)?;
    known.withdraw();
    Ok(with_all(title, formals, of, clauses))
}

// The parameters of a heading.
fn with_parameters(
    known: &mut Known,
    alloc: Global,
    title: Title,
    tree: &Option<Params>,
) -> Result<Parameters, TypeFault>
    requires { is_free known.old title.name ≡ true }
    ensures ok { IfOk result (λ p. parameters_walk known.old title tree.now ≡ Ok (parameters_of p)) }
    ensures err { IfErr result (λ e. Stops e (parameters_walk known.old title tree.now)) }
    ensures known { OnOk result (known.new ≡ spec.with_heading known.old (spec.announced title.name title.line title.is_function title.number [] None)) }
    ensures places { IfOk result IsPlaces }
{
    announce(known, alloc, title, Formals::new(alloc), None)?;
    all_parameters(known, alloc, title.name, tree)
}

// The type of a function's result.
fn result_type(
    known: &Known,
    alloc: Global,
    line: u32,
    own: &Named<Own>,
    tree: Option<Name>,
) -> Result<TypeId, TypeFault>
    ensures ok { IfOk result (λ t. spec.result_walk known.now line (named own_of own.now) tree ≡ Ok t) }
    ensures err { IfErr result (λ e. Stops e (spec.result_walk known.now line (named own_of own.now) tree)) }
{
    match tree {
        Some(of) => {
            let t = type_in(known, alloc, own, of)?;
            if may_be_result(known, t) {
                Ok(t)
            } else {
                Err(TypeFault::WrongType(of.line))
            }
        }
        None => Err(TypeFault::WrongType(line)),
    }
}

fn procedure(
    known: &mut Known,
    alloc: Global,
    title: Title,
    params: &Option<Params>,
    tree: &spv_tree::syntax::Clauses,
) -> Result<Headed, TypeFault>
    requires { is_free known.old title.name ≡ true }
    ensures ok { IfOk result (λ h. procedure_walk known.old title params.now tree.now ≡ Ok (headed_of title.name h)) }
    ensures err { IfErr result (λ e. Stops e (procedure_walk known.old title params.now tree.now)) }
    ensures known { OnOk result (known.new ≡ known.old) }
    ensures listed { IfOk result IsListed }
{
    let parameters = with_parameters(known, alloc, title, params)?;
    known.withdraw();
    with_clauses(known, alloc, title, parameters, None, tree)
}

fn function(
    known: &mut Known,
    alloc: Global,
    title: Title,
    params: &Option<Params>,
    of: Option<Name>,
    tree: &spv_tree::syntax::Clauses,
) -> Result<Headed, TypeFault>
    requires { is_free known.old title.name ≡ true }
    ensures ok { IfOk result (λ h. function_walk known.old title params.now of tree.now ≡ Ok (headed_of title.name h)) }
    ensures err { IfErr result (λ e. Stops e (function_walk known.old title params.now of tree.now)) }
    ensures known { OnOk result (known.new ≡ known.old) }
    ensures listed { IfOk result IsListed }
{
    let parameters = with_parameters(known, alloc, title, params)?;
    let t = result_type(known, alloc, title.line, &parameters.own, of)?;
    known.withdraw();
    with_clauses(known, alloc, title, parameters, Some(t), tree)
}

/// A heading with its clauses, of a routine whose name is free and that has a number among those with a body. Its own name is
/// known in it. What is known stays as it was.
pub fn heading(
    known: &mut Known,
    alloc: Global,
    number: RoutineId,
    tree: &spv_tree::syntax::Heading,
    clauses: &spv_tree::syntax::Clauses,
) -> Result<Headed, TypeFault>
    requires { is_free known.old (spec.heading_name tree.now.form).symbol ≡ true }
    ensures ok { IfOk result (λ h. spec.form_walk known.old number tree.now.line clauses.now tree.now.form ≡ Ok (headed_of (spec.heading_name tree.now.form).symbol h)) }
    ensures err { IfErr result (λ e. Stops e (spec.form_walk known.old number tree.now.line clauses.now tree.now.form)) }
    ensures known { OnOk result (known.new ≡ known.old) }
    ensures listed { IfOk result IsListed }
{
    let line = tree.line;
    match &tree.form {
        HeadingForm::Procedure(name, params) => {
            let title = Title {
                name: name.symbol,
                line,
                is_function: false,
                number,
            };
            procedure(known, alloc, title, params, clauses)
        }
        HeadingForm::Function(name, params, result) => {
            let title = Title {
                name: name.symbol,
                line,
                is_function: true,
                number,
            };
            function(known, alloc, title, params, *result, clauses)
        }
    }
}
