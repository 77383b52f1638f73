// The walk over statements.

ghost use Rattle.std.specs.Prelude.{◌≡◌, ◌++◌, ◌∷◌, [], IfOk, IfErr, OnOk, Ok, List, ℕ, option_map};
ghost use Rattle.spv_program.specs.Statements.{Assert, Empty};
ghost use Rattle.spv_tree.specs.syntax.StatementViews.{otherwise_of};
ghost use Rattle.spv_tree.specs.syntax.Model.StatementSizes.{more_arms_of, more_statements_of};
ghost use Rattle.spv_tree.specs.syntax.Statements as tree;
ghost use Rattle.spv_program.specs.typed.FormulaViews.{annotation_of};
ghost use Rattle.spv_program.specs.typed.StatementViews.{arms_of, block_of, counting_of};
ghost use Rattle.spv_program.specs.declared.typed.statements.Arm.{Arm as ArmText};
ghost use Rattle.spv_typing.specs.FormulaWalk.{annotation};
ghost use Rattle.spv_typing.specs.Outcomes.{after, if_there};
ghost use Rattle.spv_typing.specs.StatementWalk as spec;
ghost use Rattle.spv_environments.specs.Answers.{Stops};
ghost use Rattle.spv_statement_typing.specs.Chains.{arms_walk, chain_walk, for_walk, repeat_walk, so_far, while_walk};
ghost use Rattle.spv_statement_typing.specs.Settings.{setting_of};

use crate::assigning::{assignment, creation};
use crate::calling::called;
use crate::heads::{counting, tested};
use crate::labels::{LabelSet, arm_labels};
use crate::setting::{Setting, in_box};
use spv_annotation_typing::annotation;
use spv_logic::Sort;
use spv_logic::names::Symbol;
use spv_program::typed::Annotation;
use spv_tree::syntax::{
    Arm, Block, Constant, Formula, Loop, LoopForm, Name, Several, Statement, StatementForm,
};
use spv_typing::TypeFault;
use std::alloc::{AllocError, Global};

fn push<T: Drop>(items: &mut Vec<T>, item: T) -> Result<(), AllocError>
    ensures { OnOk result (items.new.items ≡ items.old.items ++ item ∷ []) }
{
    items.push(item)?;
    Ok(())
}

// The empty statement.
fn nothing(alloc: Global) -> spv_program::typed::Statement
    ensures { result ≡ Empty }
{
    spv_program::typed::Statement {
        form: spv_program::typed::StatementForm::Block(Vec::new(alloc)),
    }
}

// The INVARIANT of a loop.
fn invariant(
    setting: &Setting<'_, '_, '_, '_>,
    alloc: Global,
    tree: &Option<Formula>,
) -> Result<Box<Option<Annotation>>, TypeFault>
    ensures ok { IfOk result (λ a. if_there (annotation (setting_of setting.now).noted) tree.now ≡ Ok (option_map annotation_of a.value)) }
    ensures err { IfErr result (λ e. Stops e (if_there (annotation (setting_of setting.now).noted) tree.now)) }
{
    match tree {
        None => Ok(in_box(alloc, None)?),
        Some(formula) => {
            let noted = annotation(&setting.noted, alloc, formula)?;
            Ok(in_box(alloc, Some(noted))?)
        }
    }
}

fn assertion(
    setting: &Setting<'_, '_, '_, '_>,
    alloc: Global,
    tree: &Formula,
) -> Result<spv_program::typed::Statement, TypeFault>
    ensures ok { IfOk result (λ s. after (annotation (setting_of setting.now).noted tree.now) (λ a. Ok (Assert a)) ≡ Ok s) }
    ensures err { IfErr result (λ e. Stops e (after (annotation (setting_of setting.now).noted tree.now) (λ a. Ok (Assert a)))) }
{
    let noted = annotation(&setting.noted, alloc, tree)?;
    let noted = in_box(alloc, noted)?;
    Ok(spv_program::typed::Statement {
        form: spv_program::typed::StatementForm::Assert(noted),
    })
}

/// What a statement becomes, or the first fault in it.
#[cycle(statements)]
pub fn statement(
    setting: &Setting<'_, '_, '_, '_>,
    alloc: Global,
    tree: &Statement,
) -> Result<spv_program::typed::Statement, TypeFault>
    ensures ok { IfOk result (λ s. spec.statement_walk (setting_of setting.now) tree.now ≡ Ok s) }
    ensures err { IfErr result (λ e. Stops e (spec.statement_walk (setting_of setting.now) tree.now)) }
{
    match &tree.form {
        StatementForm::Empty => Ok(nothing(alloc)),
        StatementForm::Assignment(place, value) => {
            assignment(setting, alloc, tree.line, place, value)
        }
        StatementForm::Call(x, given) => called(setting, alloc, tree.line, *x, given),
        StatementForm::New(place) => creation(setting, alloc, tree.line, place),
        StatementForm::Block(inside) => block(setting, alloc, inside),
        StatementForm::If(test, first, other) => {
            conditional(setting, alloc, tree.line, test, first, other)
        }
        StatementForm::Case(about, first, more) => {
            selection(setting, alloc, tree.line, about, first, more)
        }
        StatementForm::Loop(noted, inside) => {
            repetition(setting, alloc, tree.line, noted, inside)
        }
        StatementForm::Assert(formula) => assertion(setting, alloc, formula),
    }
}

// A statement in a box.
#[cycle(statements)]
fn boxed(
    setting: &Setting<'_, '_, '_, '_>,
    alloc: Global,
    tree: &Statement,
) -> Result<Box<spv_program::typed::Statement>, TypeFault>
    ensures ok { IfOk result (λ s. spec.statement_walk (setting_of setting.now) tree.now ≡ Ok s.value) }
    ensures err { IfErr result (λ e. Stops e (spec.statement_walk (setting_of setting.now) tree.now)) }
{
    let made = statement(setting, alloc, tree)?;
    Ok(in_box(alloc, made)?)
}

/// What a block becomes, or the first fault in it.
#[cycle(statements)]
pub fn block(
    setting: &Setting<'_, '_, '_, '_>,
    alloc: Global,
    tree: &Block,
) -> Result<spv_program::typed::Statement, TypeFault>
    ensures ok { IfOk result (λ s. spec.block_walk (setting_of setting.now) tree.now ≡ Ok s) }
    ensures err { IfErr result (λ e. Stops e (spec.block_walk (setting_of setting.now) tree.now)) }
{
    let made = statements(setting, alloc, &tree.first, tree.more.as_slice())?;
    Ok(spv_program::typed::Statement {
        form: spv_program::typed::StatementForm::Block(made),
    })
}

// Statements one after the other.
#[cycle(statements)]
fn statements(
    setting: &Setting<'_, '_, '_, '_>,
    alloc: Global,
    first: &Statement,
    more: &[Statement],
) -> Result<Vec<spv_program::typed::Statement>, TypeFault>
    ensures ok { IfOk result (λ ss. chain_walk (setting_of setting.now) first.now more.now ≡ Ok (block_of ss.items)) }
    ensures err { IfErr result (λ e. Stops e (chain_walk (setting_of setting.now) first.now more.now)) }
{
    let mut made = Vec::new(alloc);
    let one = statement(setting, alloc, first)?;
    push(&mut made, one)?;
    for other in more {
        let next = statement(setting, alloc, other)?;
        push(&mut made, next)?;
    }
    Ok(made)
}

// What stands behind ELSE.
#[cycle(statements)]
fn otherwise(
    setting: &Setting<'_, '_, '_, '_>,
    alloc: Global,
    tree: &Option<Box<Statement>>,
) -> Result<Box<spv_program::typed::Statement>, TypeFault>
    ensures ok { IfOk result (λ s. spec.otherwise_walk (setting_of setting.now) (otherwise_of tree.now) ≡ Ok s.value) }
    ensures err { IfErr result (λ e. Stops e (spec.otherwise_walk (setting_of setting.now) (otherwise_of tree.now))) }
{
    match tree {
        None => Ok(in_box(alloc, nothing(alloc))?),
        Some(other) => boxed(setting, alloc, other),
    }
}

#[cycle(statements)]
fn conditional(
    setting: &Setting<'_, '_, '_, '_>,
    alloc: Global,
    line: u32,
    test: &Formula,
    first: &Statement,
    other: &Option<Box<Statement>>,
) -> Result<spv_program::typed::Statement, TypeFault>
    ensures ok { IfOk result (λ s. spec.statement_walk (setting_of setting.now) (tree.conditional line test.now first.now (otherwise_of other.now)) ≡ Ok s) }
    ensures err { IfErr result (λ e. Stops e (spec.statement_walk (setting_of setting.now) (tree.conditional line test.now first.now (otherwise_of other.now)))) }
{
    let value = tested(setting, alloc, line, Sort::Bool, test)?;
    let one = boxed(setting, alloc, first)?;
    let two = otherwise(setting, alloc, other)?;
    Ok(spv_program::typed::Statement {
        form: spv_program::typed::StatementForm::If(line, value, one, two),
    })
}

#[cycle(statements)]
fn selection(
    setting: &Setting<'_, '_, '_, '_>,
    alloc: Global,
    line: u32,
    about: &Formula,
    first: &Arm,
    more: &[Arm],
) -> Result<spv_program::typed::Statement, TypeFault>
    ensures ok { IfOk result (λ s. spec.statement_walk (setting_of setting.now) (tree.selection line about.now first.now (more_arms_of more.now)) ≡ Ok s) }
    ensures err { IfErr result (λ e. Stops e (spec.statement_walk (setting_of setting.now) (tree.selection line about.now first.now (more_arms_of more.now)))) }
{
    let value = tested(setting, alloc, line, Sort::Int, about)?;
    let made = boxed_arms(setting, alloc, first, more)?;
    Ok(spv_program::typed::Statement {
        form: spv_program::typed::StatementForm::Case(line, value, made),
    })
}

// The arms of a CASE that have labels.
#[cycle(statements)]
fn arms(
    setting: &Setting<'_, '_, '_, '_>,
    alloc: Global,
    first: &Arm,
    more: &[Arm],
) -> Result<Vec<spv_program::typed::Arm>, TypeFault>
    ensures ok { IfOk result (λ xs. arms_walk (setting_of setting.now) first.now more.now ≡ Ok (arms_of xs.items)) }
    ensures err { IfErr result (λ e. Stops e (arms_walk (setting_of setting.now) first.now more.now)) }
{
    let mut seen = LabelSet::new(alloc);
    let mut made = Vec::new(alloc);
    add_arm(setting, alloc, &mut seen, &mut made, first)?;
    for other in more {
        add_arm(setting, alloc, &mut seen, &mut made, other)?;
    }
    Ok(made)
}

// The same in a box.
#[cycle(statements)]
fn boxed_arms(
    setting: &Setting<'_, '_, '_, '_>,
    alloc: Global,
    first: &Arm,
    more: &[Arm],
) -> Result<Box<Vec<spv_program::typed::Arm>>, TypeFault>
    ensures ok { IfOk result (λ xs. arms_walk (setting_of setting.now) first.now more.now ≡ Ok (arms_of xs.value.items)) }
    ensures err { IfErr result (λ e. Stops e (arms_walk (setting_of setting.now) first.now more.now)) }
{
    let made = arms(setting, alloc, first, more)?;
    Ok(in_box(alloc, made)?)
}

// One more arm, where it has labels.
#[cycle(statements)]
fn add_arm(
    setting: &Setting<'_, '_, '_, '_>,
    alloc: Global,
    seen: &mut LabelSet,
    made: &mut Vec<spv_program::typed::Arm>,
    tree: &Arm,
) -> Result<(), TypeFault>
    ensures ok { IfOk result (λ u. spec.arm_walk (setting_of setting.now) (so_far seen.old made.old.items) tree.now ≡ Ok (so_far seen.new made.new.items)) }
    ensures err { IfErr result (λ e. Stops e (spec.arm_walk (setting_of setting.now) (so_far seen.old made.old.items) tree.now)) }
{
    match &tree.form {
        None => Ok(()),
        Some((constants, body)) => {
            let next = arm(setting, alloc, seen, constants, body)?;
            Ok(push(made, next)?)
        }
    }
}

// An arm with its labels.
#[cycle(statements)]
fn arm(
    setting: &Setting<'_, '_, '_, '_>,
    alloc: Global,
    seen: &mut LabelSet,
    constants: &Several<Constant>,
    body: &Statement,
) -> Result<spv_program::typed::Arm, TypeFault>
    ensures ok { IfOk result (λ a. (line : ℕ) (made : List ArmText) →
        spec.arm_walk (setting_of setting.now) (so_far seen.old made) (tree.arm line constants.now body.now) ≡ Ok (so_far seen.new (made ++ a ∷ []))) }
    ensures err { IfErr result (λ e. (line : ℕ) (made : List ArmText) →
        Stops e (spec.arm_walk (setting_of setting.now) (so_far seen.old made) (tree.arm line constants.now body.now))) }
{
    let own = arm_labels(&setting.inside, alloc, seen, constants)?;
    let made = boxed(setting, alloc, body)?;
    Ok(spv_program::typed::Arm {
        labels: own,
        body: made,
    })
}

// A loop with its INVARIANT.
#[cycle(statements)]
fn repetition(
    setting: &Setting<'_, '_, '_, '_>,
    alloc: Global,
    line: u32,
    noted: &Option<Formula>,
    inside: &Loop,
) -> Result<spv_program::typed::Statement, TypeFault>
    ensures ok { IfOk result (λ s. spec.statement_walk (setting_of setting.now) (tree.repetition line noted.now inside.now) ≡ Ok s) }
    ensures err { IfErr result (λ e. Stops e (spec.statement_walk (setting_of setting.now) (tree.repetition line noted.now inside.now))) }
{
    let made = invariant(setting, alloc, noted)?;
    repeated(setting, alloc, line, made, inside)
}

#[cycle(statements)]
#[tactic(auto, using(crate::proofs::Loops::repeat_is))]
fn repeated(
    setting: &Setting<'_, '_, '_, '_>,
    alloc: Global,
    line: u32,
    noted: Box<Option<Annotation>>,
    inside: &Loop,
) -> Result<spv_program::typed::Statement, TypeFault>
    ensures ok { IfOk result (λ s. spec.loop_walk (setting_of setting.now) line (option_map annotation_of noted.value) inside.now ≡ Ok s) }
    ensures err { IfErr result (λ e. Stops e (spec.loop_walk (setting_of setting.now) line (option_map annotation_of noted.value) inside.now)) }
{
    match &inside.form {
        LoopForm::While(test, body) => while_loop(setting, alloc, line, noted, test, body),
        LoopForm::Repeat(first, more, test) => {
            repeat_loop(setting, alloc, line, noted, first, more, test)
        }
        LoopForm::For(x, from, towards, to, body) => {
            let head = counting(setting, alloc, line, *x, from, *towards, to)?;
            for_loop(setting, alloc, line, noted, head, body)
        }
    }
}

#[cycle(statements)]
fn while_loop(
    setting: &Setting<'_, '_, '_, '_>,
    alloc: Global,
    line: u32,
    noted: Box<Option<Annotation>>,
    test: &Formula,
    body: &Statement,
) -> Result<spv_program::typed::Statement, TypeFault>
    ensures ok { IfOk result (λ s. while_walk (setting_of setting.now) line (option_map annotation_of noted.value) test.now body.now ≡ Ok s) }
    ensures err { IfErr result (λ e. Stops e (while_walk (setting_of setting.now) line (option_map annotation_of noted.value) test.now body.now)) }
{
    let value = tested(setting, alloc, line, Sort::Bool, test)?;
    let made = boxed(setting, alloc, body)?;
    Ok(spv_program::typed::Statement {
        form: spv_program::typed::StatementForm::While(line, noted, value, made),
    })
}

#[cycle(statements)]
fn repeat_loop(
    setting: &Setting<'_, '_, '_, '_>,
    alloc: Global,
    line: u32,
    noted: Box<Option<Annotation>>,
    first: &Statement,
    more: &[Statement],
    test: &Formula,
) -> Result<spv_program::typed::Statement, TypeFault>
    ensures ok { IfOk result (λ s. repeat_walk (setting_of setting.now) line (option_map annotation_of noted.value) first.now more.now test.now ≡ Ok s) }
    ensures err { IfErr result (λ e. Stops e (repeat_walk (setting_of setting.now) line (option_map annotation_of noted.value) first.now more.now test.now)) }
{
    let made = boxed_statements(setting, alloc, first, more)?;
    let value = tested(setting, alloc, line, Sort::Bool, test)?;
    Ok(spv_program::typed::Statement {
        form: spv_program::typed::StatementForm::Repeat(line, noted, made, value),
    })
}

// Statements one after the other, as one statement in a box.
#[cycle(statements)]
fn boxed_statements(
    setting: &Setting<'_, '_, '_, '_>,
    alloc: Global,
    first: &Statement,
    more: &[Statement],
) -> Result<Box<spv_program::typed::Statement>, TypeFault>
    ensures ok { IfOk result (λ s. chain_walk (setting_of setting.now) first.now more.now ≡ Ok s.value) }
    ensures err { IfErr result (λ e. Stops e (chain_walk (setting_of setting.now) first.now more.now)) }
{
    let made = statements(setting, alloc, first, more)?;
    let whole = spv_program::typed::Statement {
        form: spv_program::typed::StatementForm::Block(made),
    };
    Ok(in_box(alloc, whole)?)
}

// A variable in front of those that count.
fn counted_inside(alloc: Global, x: Symbol, counted: &[Symbol]) -> Result<Vec<Symbol>, AllocError>
    ensures { IfOk result (λ xs. xs.items ≡ x ∷ counted.now) }
{
    let mut inside = Vec::new(alloc);
    inside.push(x)?;
    inside.extend_from_slice(counted)?;
    Ok(inside)
}

// A FOR whose head is there.
#[cycle(statements)]
fn for_loop(
    setting: &Setting<'_, '_, '_, '_>,
    alloc: Global,
    line: u32,
    noted: Box<Option<Annotation>>,
    head: Box<spv_program::typed::Counting>,
    body: &Statement,
) -> Result<spv_program::typed::Statement, TypeFault>
    ensures ok { IfOk result (λ s. for_walk (setting_of setting.now) line (option_map annotation_of noted.value) (counting_of head.value) body.now ≡ Ok s) }
    ensures err { IfErr result (λ e. Stops e (for_walk (setting_of setting.now) line (option_map annotation_of noted.value) (counting_of head.value) body.now)) }
{
    let counted = counted_inside(alloc, head.variable, setting.counted)?;
    let within = Setting {
        inside: setting.inside,
        noted: setting.noted,
        counted: counted.as_slice(),
    };
    let made = boxed(&within, alloc, body)?;
    Ok(spv_program::typed::Statement {
        form: spv_program::typed::StatementForm::For(line, noted, head, made),
    })
}
