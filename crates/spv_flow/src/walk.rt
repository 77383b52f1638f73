// The walk over statements, each with the conditions behind it.

ghost use Rattle.std.specs.Prelude.{◌≡◌, [], ◌∷◌, length, option_map};
ghost use Rattle.spv_term.specs.Arena.{tree};
ghost use Rattle.spv_program.specs.Statements as plain;
ghost use Rattle.spv_program.specs.Statements.{If, Case, While, Repeat, For};
ghost use Rattle.spv_program.specs.typed.FormulaViews.{annotation_of};
ghost use Rattle.spv_program.specs.typed.StatementViews.{arms_of, block_of, counting_of};
ghost use Rattle.spv_assign.specs.supply.Numbers.{AreThere, supply_of};
ghost use Rattle.spv_assign.specs.Conditions.{AreIn, conditions_of};
ghost use Rattle.spv_meaning.specs.Before as meaning;
ghost use Rattle.spv_assign.specs.creation_trace.StatementEvents.{in_order};
ghost use Rattle.spv_flow_parts.specs.Standing.{Stands};
ghost use Rattle.spv_flow_parts.specs.Walks.{Comes, made_of};
ghost use Rattle.spv_flow_parts.specs.leaves.Parts.{IsTaken};
ghost use Rattle.spv_flow.specs.statement_rules.Events.{events_by};
ghost use Rattle.spv_flow.specs.Walking.{MayWalk, MayWalkArms, WalksArms, WalksBy, one_arm_events, one_arm_made};

use crate::statement_rules::{
    Begun, BegunFor, begin_for, begin_repeat, begin_while, end_for, end_repeat, end_while,
    tested_ways, with_arm,
};
use spv_assign::Pending;
use spv_assign::creation_trace::GenFault;
use spv_assign::supply::Supply;
use spv_flow_parts::leaves::{Leaves, before_assert};
use spv_flow_parts::{Body, IndexedProgram, copied};
use spv_program::typed::{Annotation, Arm, Counting, Expression, Statement, StatementForm};
use spv_term::{TermId, Terms};

#[cycle(statements)]
fn statement<L: Leaves>(
    leaves: &mut L,
    program: &IndexedProgram<'_>,
    body: &Body<'_>,
    terms: &mut Terms,
    supply: &mut Supply,
    s: &Statement,
    rest: Pending,
) -> Result<Pending, GenFault>
    requires ready { L.fits leaves.old program.now body.now.here }
    requires fits { MayWalk (L.takes program.now body.now.here) program.now body.now terms.old (supply_of supply.old) s.now rest.items }
    ensures ready { L.fits leaves.new program.now body.now.here }
    ensures made { WalksBy result (L.making program.now body.now.here) program.now body.now.here s.now (made_of terms.old rest.items (supply_of supply.old)) terms.old terms.new (supply_of supply.new) }
{
    match &s.form {
        StatementForm::Assign(_, _) => leaves.leaf(program, body, terms, supply, s, rest),
        StatementForm::Perform(_) => leaves.leaf(program, body, terms, supply, s, rest),
        StatementForm::New(_, _, _) => leaves.leaf(program, body, terms, supply, s, rest),
        StatementForm::Block(inside) => block(leaves, program, body, terms, supply, inside, rest),
        StatementForm::If(line, e, a, b) => conditional(
            leaves, program, body, terms, supply, *line, e, a, b, rest,
        ),
        StatementForm::Case(line, e, cases) => selection(
            leaves, program, body, terms, supply, *line, e, cases, &rest,
        ),
        StatementForm::While(line, f, e, inside) => while_loop(
            leaves, program, body, terms, supply, s, *line, f, e, inside, rest,
        ),
        StatementForm::Repeat(line, f, inside, e) => repeat_loop(
            leaves, program, body, terms, supply, s, *line, f, e, inside, rest,
        ),
        StatementForm::For(line, f, count, inside) => for_loop(
            leaves, program, body, terms, supply, s, *line, f, count, inside, &rest,
        ),
        StatementForm::Assert(a) => before_assert(leaves, program, body, terms, a, rest),
    }
}

// A block, from its last statement to its first.
#[cycle(statements)]
fn block<L: Leaves>(
    leaves: &mut L,
    program: &IndexedProgram<'_>,
    body: &Body<'_>,
    terms: &mut Terms,
    supply: &mut Supply,
    statements: &[Statement],
    rest: Pending,
) -> Result<Pending, GenFault>
    requires ready { L.fits leaves.old program.now body.now.here }
    requires fits { MayWalk (L.takes program.now body.now.here) program.now body.now terms.old (supply_of supply.old) (block_of statements.now) rest.items }
    ensures ready { L.fits leaves.new program.now body.now.here }
    ensures made { WalksBy result (L.making program.now body.now.here) program.now body.now.here (block_of statements.now) (made_of terms.old rest.items (supply_of supply.old)) terms.old terms.new (supply_of supply.new) }
{
    let mut made = rest;
    for place in (0..statements.len()).rev() {
        made = statement(
            leaves,
            program,
            body,
            terms,
            supply,
            &statements[place],
            made,
        )?;
    }
    Ok(made)
}

#[cycle(statements)]
fn conditional<L: Leaves>(
    leaves: &mut L,
    program: &IndexedProgram<'_>,
    body: &Body<'_>,
    terms: &mut Terms,
    supply: &mut Supply,
    line: u32,
    e: &Expression,
    a: &Statement,
    b: &Statement,
    rest: Pending,
) -> Result<Pending, GenFault>
    requires ready { L.fits leaves.old program.now body.now.here }
    requires fits { MayWalk (L.takes program.now body.now.here) program.now body.now terms.old (supply_of supply.old) (If line e.now a.now b.now) rest.items }
    ensures ready { L.fits leaves.new program.now body.now.here }
    ensures made { WalksBy result (L.making program.now body.now.here) program.now body.now.here (If line e.now a.now b.now) (made_of terms.old rest.items (supply_of supply.old)) terms.old terms.new (supply_of supply.new) }
{
    let _ = line;
    let test = leaves.test(program, body, terms, supply, e)?;
    let kept = copied(body.alloc, &rest)?;
    let first = statement(leaves, program, body, terms, supply, a, kept)?;
    let second = statement(leaves, program, body, terms, supply, b, rest)?;
    tested_ways(leaves, program, body, terms, &test, first, second)
}

#[cycle(statements)]
fn selection<L: Leaves>(
    leaves: &mut L,
    program: &IndexedProgram<'_>,
    body: &Body<'_>,
    terms: &mut Terms,
    supply: &mut Supply,
    line: u32,
    e: &Expression,
    cases: &[Arm],
    rest: &Pending,
) -> Result<Pending, GenFault>
    requires ready { L.fits leaves.old program.now body.now.here }
    requires fits { MayWalk (L.takes program.now body.now.here) program.now body.now terms.old (supply_of supply.old) (Case line e.now (arms_of cases.now)) rest.now.items }
    ensures ready { L.fits leaves.new program.now body.now.here }
    ensures made { WalksBy result (L.making program.now body.now.here) program.now body.now.here (Case line e.now (arms_of cases.now)) (made_of terms.old rest.now.items (supply_of supply.old)) terms.old terms.new (supply_of supply.new) }
{
    let _ = line;
    let about = leaves.test(program, body, terms, supply, e)?;
    let made = arms(
        leaves, program, body, terms, supply, about.term, cases, rest,
    )?;
    leaves.before_test(program, body, &about, made)
}

// The arms of a CASE, from the first to the last.
#[cycle(statements)]
fn arms<L: Leaves>(
    leaves: &mut L,
    program: &IndexedProgram<'_>,
    body: &Body<'_>,
    terms: &mut Terms,
    supply: &mut Supply,
    about: TermId,
    cases: &[Arm],
    rest: &Pending,
) -> Result<Pending, GenFault>
    requires ready { L.fits leaves.old program.now body.now.here }
    requires fits { MayWalkArms (L.takes program.now body.now.here) program.now body.now terms.old (supply_of supply.old) about (arms_of cases.now) rest.now.items }
    ensures ready { L.fits leaves.new program.now body.now.here }
    ensures made { WalksArms result (L.making program.now body.now.here) program.now body.now (tree terms.old about) (arms_of cases.now) (made_of terms.old rest.now.items (supply_of supply.old)) terms.old terms.new (supply_of supply.new) }
{
    let mut made = Pending::new(body.alloc);
    for case in cases {
        made = one_arm(
            leaves, program, body, terms, supply, about, case, rest, made,
        )?;
    }
    Ok(made)
}

#[cycle(statements)]
fn one_arm<L: Leaves>(
    leaves: &mut L,
    program: &IndexedProgram<'_>,
    body: &Body<'_>,
    terms: &mut Terms,
    supply: &mut Supply,
    about: TermId,
    case: &Arm,
    rest: &Pending,
    so_far: Pending,
) -> Result<Pending, GenFault>
    requires ready { L.fits leaves.old program.now body.now.here }
    requires fits { MayWalkArms (L.takes program.now body.now.here) program.now body.now terms.old (supply_of supply.old) about (arms_of (case.now ∷ [])) rest.now.items }
    requires so_far { AreIn terms.old so_far.items }
    ensures ready { L.fits leaves.new program.now body.now.here }
    ensures made { Comes result
        (one_arm_made program.now body.now (tree terms.old about) case.now.labels case.now.body.value (conditions_of terms.old so_far.items) (made_of terms.old rest.now.items (supply_of supply.old)))
        (in_order (one_arm_events (L.making program.now body.now.here) program.now body.now (tree terms.old about) case.now.labels case.now.body.value (length so_far.items) (made_of terms.old rest.now.items (supply_of supply.old))))
        terms.old terms.new (supply_of supply.new) }
{
    let kept = copied(body.alloc, rest)?;
    let first = statement(leaves, program, body, terms, supply, &case.body, kept)?;
    with_arm(terms, about, case.labels.as_slice(), so_far, first)
}

#[cycle(statements)]
fn while_loop<L: Leaves>(
    leaves: &mut L,
    program: &IndexedProgram<'_>,
    body: &Body<'_>,
    terms: &mut Terms,
    supply: &mut Supply,
    whole: &Statement,
    line: u32,
    f: &Option<Annotation>,
    e: &Expression,
    inside: &Statement,
    rest: Pending,
) -> Result<Pending, GenFault>
    requires ready { L.fits leaves.old program.now body.now.here }
    requires is { whole.now ≡ While line (option_map annotation_of f.now) e.now inside.now }
    requires fits { MayWalk (L.takes program.now body.now.here) program.now body.now terms.old (supply_of supply.old) whole.now rest.items }
    ensures ready { L.fits leaves.new program.now body.now.here }
    ensures made { WalksBy result (L.making program.now body.now.here) program.now body.now.here whole.now (made_of terms.old rest.items (supply_of supply.old)) terms.old terms.new (supply_of supply.new) }
{
    let _ = line;
    let Begun {
        terms: known,
        behind,
    } = begin_while(leaves, program, body, terms, supply, f, e)?;
    let round = statement(leaves, program, body, terms, supply, inside, behind)?;
    end_while(
        leaves, program, body, terms, supply, whole, f, &known, round, rest,
    )
}

#[cycle(statements)]
fn repeat_loop<L: Leaves>(
    leaves: &mut L,
    program: &IndexedProgram<'_>,
    body: &Body<'_>,
    terms: &mut Terms,
    supply: &mut Supply,
    whole: &Statement,
    line: u32,
    f: &Option<Annotation>,
    e: &Expression,
    inside: &Statement,
    rest: Pending,
) -> Result<Pending, GenFault>
    requires ready { L.fits leaves.old program.now body.now.here }
    requires is { whole.now ≡ Repeat line (option_map annotation_of f.now) inside.now e.now }
    requires fits { MayWalk (L.takes program.now body.now.here) program.now body.now terms.old (supply_of supply.old) whole.now rest.items }
    ensures ready { L.fits leaves.new program.now body.now.here }
    ensures made { WalksBy result (L.making program.now body.now.here) program.now body.now.here whole.now (made_of terms.old rest.items (supply_of supply.old)) terms.old terms.new (supply_of supply.new) }
{
    let _ = line;
    let Begun {
        terms: known,
        behind,
    } = begin_repeat(leaves, program, body, terms, supply, f, e, rest)?;
    let turn = statement(leaves, program, body, terms, supply, inside, behind)?;
    end_repeat(
        leaves, program, body, terms, supply, whole, f, known.note, turn,
    )
}

#[cycle(statements)]
fn for_loop<L: Leaves>(
    leaves: &mut L,
    program: &IndexedProgram<'_>,
    body: &Body<'_>,
    terms: &mut Terms,
    supply: &mut Supply,
    whole: &Statement,
    line: u32,
    f: &Option<Annotation>,
    count: &Counting,
    inside: &Statement,
    rest: &Pending,
) -> Result<Pending, GenFault>
    requires ready { L.fits leaves.old program.now body.now.here }
    requires is { whole.now ≡ For line (option_map annotation_of f.now) (counting_of count.now) inside.now }
    requires fits { MayWalk (L.takes program.now body.now.here) program.now body.now terms.old (supply_of supply.old) whole.now rest.now.items }
    ensures ready { L.fits leaves.new program.now body.now.here }
    ensures made { WalksBy result (L.making program.now body.now.here) program.now body.now.here whole.now (made_of terms.old rest.now.items (supply_of supply.old)) terms.old terms.new (supply_of supply.new) }
{
    let _ = line;
    let BegunFor {
        terms: known,
        behind,
    } = begin_for(leaves, program, body, terms, supply, f, count)?;
    let turn = statement(leaves, program, body, terms, supply, inside, behind)?;
    end_for(
        leaves, program, body, terms, supply, whole, f, count, &known, &turn, rest,
    )
}

/// The conditions before a statement whose parts the leaves take, where these stand behind it: those of the definition,
/// with the fresh variables that it takes. `Conditions` comes where a list of them is longer than `LONGEST_LIST`, and
/// `Terms` where the arena is full, whichever is met first in the order of `events_by`.
pub fn before<L: Leaves>(
    leaves: &mut L,
    program: &IndexedProgram<'_>,
    body: &Body<'_>,
    terms: &mut Terms,
    supply: &mut Supply,
    s: &Statement,
    rest: Pending,
) -> Result<Pending, GenFault>
    requires fits { L.fits leaves.old program.now body.now.here }
    requires stands { Stands program.now body.now terms.old }
    requires taken { IsTaken program.now body.now.here (L.takes program.now body.now.here) s.now }
    requires there { AreThere terms.old (supply_of supply.old) }
    requires rest { AreIn terms.old rest.items }
    ensures fits { L.fits leaves.new program.now body.now.here }
    ensures made { Comes result (meaning.before program.now body.now.here s.now (made_of terms.old rest.items (supply_of supply.old)))
        (events_by (L.making program.now body.now.here) program.now body.now.here s.now (made_of terms.old rest.items (supply_of supply.old))) terms.old terms.new (supply_of supply.new) }
{
    statement(leaves, program, body, terms, supply, s, rest)
}
