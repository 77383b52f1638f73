// Bodies that end.

ghost use Rattle.std.specs.Prelude.{◌≡◌, Some, IfOk, IfErr, Ok, OnOk};
ghost use Rattle.spv_program.specs.typed.ProgramViews.{routine_of};
ghost use Rattle.spv_typing.specs.RoutineWalk.{with_body};
ghost use Rattle.spv_typing.specs.StatementWalk.{block_walk};
ghost use Rattle.spv_typing.specs.ProgramWalk as walk;
ghost use Rattle.spv_environments.specs.Answers.{Stops};
ghost use Rattle.spv_environments.specs.Views.{specified_of};
ghost use Rattle.spv_routine_typing.specs.Row.{begun_in, outside_at, setting_in};

use crate::begun::Begun;
use spv_environments::{Heading, Known, Own, Scope, Specified};
use spv_logic::TypeId;
use spv_logic::list::List;
use spv_logic::names::Symbol;
use spv_program::ordered_map::Named;
use spv_program::typed::{Routine, Statement};
use spv_statement_typing::{Setting, block};
use spv_tree::syntax::Block;
use spv_typing::TypeFault;
use std::alloc::Global;

// The statement of a body, in a routine with these names.
fn body(
    known: &Known,
    alloc: Global,
    name: Symbol,
    heading: &Heading,
    own: &Named<Own>,
    tree: &Block,
) -> Result<Statement, TypeFault>
    ensures ok { IfOk result (λ s. block_walk (setting_in known.now name heading.now own.now) tree.now ≡ Ok s) }
    ensures err { IfErr result (λ e. Stops e (block_walk (setting_in known.now name heading.now own.now) tree.now)) }
{
    let none = Named::new(alloc);
    let result = match heading.result {
        Some(t) => Some((name, t)),
        None => None,
    };
    let inside = Scope {
        known,
        parameters: &none,
        result: None,
        own,
        routine: Some((name, heading)),
    };
    let noted = Scope {
        known,
        parameters: &none,
        result,
        own,
        routine: Some((name, heading)),
    };
    let setting = Setting {
        inside,
        noted,
        counted: &[],
    };
    block(&setting, alloc, tree)
}

// A routine with its body.
fn with_all(
    name: Symbol,
    specified: Specified,
    locals: List<(Symbol, TypeId)>,
    body: Statement,
) -> Routine
    ensures { routine_of result ≡ with_body (specified_of name specified) locals body }
{
    let Specified {
        heading,
        initial,
        entry,
        exit,
    } = specified;
    let Heading {
        line,
        formals,
        result,
        globals,
        ..
    } = heading;
    Routine {
        name,
        line,
        formals: formals.into_list(),
        result,
        globals,
        initial,
        entry,
        exit,
        locals,
        body,
    }
}

/// The routine whose body ends here.
pub(crate) fn end_body(
    known: &mut Known,
    alloc: Global,
    begun: Begun,
    tree: &Block,
) -> Result<(), TypeFault>
    ensures ok { OnOk result (walk.end_body known.old (Some (begun_in known.old begun)) tree.now ≡ Ok (outside_at known.new)) }
    ensures err { IfErr result (λ e. Stops e (walk.end_body known.old (Some (begun_in known.old begun)) tree.now)) }
{
    let Begun {
        name,
        specified,
        local,
    } = begun;
    let body = body(known, alloc, name, &specified.heading, &local.own, tree)?;
    known.add_routine(with_all(name, specified, local.variables, body))?;
    Ok(())
}
