// Assignments and NEW.

ghost use Rattle.std.specs.Prelude.{◌≡◌, IfOk, IfErr, Ok};
ghost use Rattle.spv_program.specs.Statements as plain;
ghost use Rattle.spv_typing.specs.StatementWalk as spec;
ghost use Rattle.spv_environments.specs.Answers.{Stops};
ghost use Rattle.spv_statement_typing.specs.Parts.{assigned_to, created_at};
ghost use Rattle.spv_statement_typing.specs.Settings.{setting_of};

use crate::setting::{Setting, in_box, kept};
use spv_expression_typing::counter_changes::{changed_by_assignment, changed_by_creation};
use spv_expression_typing::{Reached, operand, settled_expression, written};
use spv_logic::TypeId;
use spv_program::typed::{Expression, Statement, StatementForm};
use spv_tree::syntax::{Designator, Formula};
use spv_typing::TypeFault;
use std::alloc::{AllocError, Global};

// An assignment of these sides.
fn assigning(
    alloc: Global,
    place: spv_program::typed::Designator,
    value: Expression,
) -> Result<Statement, AllocError>
    ensures { IfOk result (λ s. s ≡ plain.Assign place value) }
{
    let place = in_box(alloc, place)?;
    let value = in_box(alloc, value)?;
    Ok(Statement {
        form: StatementForm::Assign(place, value),
    })
}

// NEW of this place.
fn creating(
    alloc: Global,
    line: u32,
    place: spv_program::typed::Designator,
    of: TypeId,
) -> Result<Statement, AllocError>
    ensures { IfOk result (λ s. s ≡ plain.New line place of) }
{
    let place = in_box(alloc, place)?;
    Ok(Statement {
        form: StatementForm::New(line, place, of),
    })
}

// An assignment whose sides are there.
fn assigned(
    setting: &Setting<'_, '_, '_, '_>,
    alloc: Global,
    line: u32,
    place: Option<spv_program::typed::Designator>,
    value: Expression,
) -> Result<Statement, TypeFault>
    ensures ok { IfOk result (λ s. assigned_to (setting_of setting.now) line place value ≡ Ok s) }
    ensures err { IfErr result (λ e. Stops e (assigned_to (setting_of setting.now) line place value)) }
{
    match place {
        None => Err(TypeFault::WrongType(line)),
        Some(d) => {
            let changed = changed_by_assignment(
                &setting.inside,
                alloc,
                setting.counted,
                &d,
                &value,
            )?;
            kept(line, changed, assigning(alloc, d, value)?)
        }
    }
}

/// `designator := formula`
pub(crate) fn assignment(
    setting: &Setting<'_, '_, '_, '_>,
    alloc: Global,
    line: u32,
    place: &Designator,
    value: &Formula,
) -> Result<Statement, TypeFault>
    ensures ok { IfOk result (λ s. spec.assigned (setting_of setting.now) line place.now value.now ≡ Ok s) }
    ensures err { IfErr result (λ e. Stops e (spec.assigned (setting_of setting.now) line place.now value.now)) }
{
    let reached = written(&setting.inside, alloc, place)?;
    let found = operand(&setting.inside, alloc, value)?;
    let wanted = setting.inside.known.sort_of(reached.of());
    let made = settled_expression(line, wanted, found)?;
    assigned(setting, alloc, line, reached.into_designator(), made)
}

// NEW where its place is there.
fn created(
    setting: &Setting<'_, '_, '_, '_>,
    alloc: Global,
    line: u32,
    reached: Reached,
    of: TypeId,
) -> Result<Statement, TypeFault>
    ensures ok { IfOk result (λ s. created_at (setting_of setting.now) line reached of ≡ Ok s) }
    ensures err { IfErr result (λ e. Stops e (created_at (setting_of setting.now) line reached of)) }
{
    match reached.into_designator() {
        None => Err(TypeFault::WrongType(line)),
        Some(d) => {
            let changed = changed_by_creation(
                &setting.inside,
                alloc,
                setting.counted,
                line,
                &d,
                of,
            )?;
            kept(line, changed, creating(alloc, line, d, of)?)
        }
    }
}

/// `NEW(designator)`
pub(crate) fn creation(
    setting: &Setting<'_, '_, '_, '_>,
    alloc: Global,
    line: u32,
    place: &Designator,
) -> Result<Statement, TypeFault>
    ensures ok { IfOk result (λ s. spec.created (setting_of setting.now) line place.now ≡ Ok s) }
    ensures err { IfErr result (λ e. Stops e (spec.created (setting_of setting.now) line place.now)) }
{
    let reached = written(&setting.inside, alloc, place)?;
    match setting.inside.known.target(reached.of()) {
        Some(t) => created(setting, alloc, line, reached, t),
        None => Err(TypeFault::WrongType(place.name.line)),
    }
}
