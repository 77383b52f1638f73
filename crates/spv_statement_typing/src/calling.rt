// Calls that are statements.

ghost use Rattle.std.specs.Prelude.{◌≡◌, IfOk, IfErr, Ok};
ghost use Rattle.spv_tree.specs.syntax.StatementViews.{given_of};
ghost use Rattle.spv_typing.specs.Known.{meaning};
ghost use Rattle.spv_typing.specs.StatementWalk as spec;
ghost use Rattle.spv_environments.specs.Answers.{Stops};
ghost use Rattle.spv_environments.specs.Views.{heading_of};
ghost use Rattle.spv_statement_typing.specs.Calls.{routine_called};
ghost use Rattle.spv_statement_typing.specs.Settings.{setting_of};

use crate::setting::{Setting, kept};
use spv_environments::{Heading, Meaning};
use spv_expression_typing::counter_changes::changed_by_call;
use spv_expression_typing::{arity, call, no_call};
use spv_logic::names::Symbol;
use spv_program::typed::{Call, Statement, StatementForm};
use spv_tree::syntax::{Formula, Name, Several};
use spv_typing::TypeFault;
use std::alloc::Global;

// A call of a routine that has no result.
fn performed(
    setting: &Setting<'_, '_, '_, '_>,
    alloc: Global,
    line: u32,
    name: Symbol,
    heading: &Heading,
    call: Call,
) -> Result<Statement, TypeFault>
    ensures ok { IfOk result (λ s. spec.performed (setting_of setting.now) line (heading_of name heading.now) call ≡ Ok s) }
    ensures err { IfErr result (λ e. Stops e (spec.performed (setting_of setting.now) line (heading_of name heading.now) call)) }
{
    match heading.result {
        Some(_) => Err(TypeFault::WrongType(line)),
        None => {
            let changed = changed_by_call(&setting.inside, alloc, setting.counted, &call)?;
            kept(
                line,
                changed,
                Statement {
                    form: StatementForm::Perform(call),
                },
            )
        }
    }
}

fn routine_called(
    setting: &Setting<'_, '_, '_, '_>,
    alloc: Global,
    line: u32,
    at: u32,
    name: Symbol,
    heading: &Heading,
    given: &Option<Box<Several<Formula>>>,
) -> Result<Statement, TypeFault>
    ensures ok { IfOk result (λ s. routine_called (setting_of setting.now) line at (heading_of name heading.now) (given_of given.now) ≡ Ok s) }
    ensures err { IfErr result (λ e. Stops e (routine_called (setting_of setting.now) line at (heading_of name heading.now) (given_of given.now))) }
{
    let made = call(&setting.inside, alloc, line, at, name, heading, given)?;
    performed(setting, alloc, line, name, heading, made)
}

// What is no procedure.
#[tactic(auto, using(crate::proofs::Faults::no_procedure_stops))]
fn no_procedure(
    setting: &Setting<'_, '_, '_, '_>,
    alloc: Global,
    line: u32,
    count: Option<usize>,
    given: &Option<Box<Several<Formula>>>,
) -> TypeFault
    ensures { Stops result (spec.no_procedure line count (spec.arguments_of (setting_of setting.now).inside (given_of given.now))) }
{
    no_call(&setting.inside, alloc, line, count, given)
}

/// A call that is a statement.
pub(crate) fn called(
    setting: &Setting<'_, '_, '_, '_>,
    alloc: Global,
    line: u32,
    x: Name,
    given: &Option<Box<Several<Formula>>>,
) -> Result<Statement, TypeFault>
    ensures ok { IfOk result (λ s. spec.called (setting_of setting.now) line x (meaning (setting_of setting.now).inside x.symbol) (spec.arguments_of (setting_of setting.now).inside (given_of given.now)) ≡ Ok s) }
    ensures err { IfErr result (λ e. Stops e (spec.called (setting_of setting.now) line x (meaning (setting_of setting.now).inside x.symbol) (spec.arguments_of (setting_of setting.now).inside (given_of given.now)))) }
{
    match setting.inside.meaning(x.symbol) {
        Some(Meaning::Routine(name, heading)) => {
            routine_called(setting, alloc, line, x.line, name, heading, given)
        }
        Some(Meaning::Declared(_, signature)) => {
            let count = signature.args.len();
            Err(no_procedure(setting, alloc, line, Some(count), given))
        }
        Some(Meaning::Constant(_)) => Err(no_procedure(setting, alloc, line, None, given)),
        Some(Meaning::Place(_)) => Err(no_procedure(setting, alloc, line, None, given)),
        Some(Meaning::Start(_)) => Err(no_procedure(setting, alloc, line, None, given)),
        Some(Meaning::Type(_)) => Err(no_procedure(setting, alloc, line, None, given)),
        Some(Meaning::List) => Err(no_procedure(setting, alloc, line, None, given)),
        None => match setting.inside.function(x.symbol) {
            Some(b) => Err(no_procedure(setting, alloc, line, Some(arity(b)), given)),
            None => Err(TypeFault::Undeclared(x.line, x.symbol)),
        },
    }
}
