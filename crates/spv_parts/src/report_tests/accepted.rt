//! A proof that was found, which is what a page prints, is accepted by the checker.

ghost use Rattle.std.specs.Prelude.{◌≡◌, ◌<◌, length, IfOk, IfSome, IsTrue};
ghost use Rattle.spv_program.specs.Typing.{well_typed};
ghost use Rattle.spv_assign.specs.Conditions.{AreIn};
ghost use Rattle.spv_proof.specs.checker.Ends.{ConditionIn};
ghost use Rattle.spv_proof_rules.specs.Stand.{NodesIn};
ghost use Rattle.spv_proof_steps.specs.Candidates.{AllFormulas};
ghost use Rattle.spv_verdicts.specs.answers.Views.{VerdictIn};
ghost use Rattle.spv_verify.specs.reporting.Parts.{AreFormulasIn};

use spv_assign::creation_trace::GenFault;
use spv_conditions::{conditions, law_sorted_conditions};
use spv_fact_search::decide_with_facts;
use spv_logic::names::Names;
use spv_parser::language::program;
use spv_program::typed::Program;
use spv_proof::checker::{CheckStop, check};
use spv_proof_steps::is_truth;
use spv_reports::default_limits;
use spv_term::{Condition, TermId, Terms};
use spv_types::{Typed, typed};
use spv_verdicts::answers::{Decided, Verdict};
use std::alloc::{AllocError, Global};
use std::test::Fail;

fn are_formulas(terms: &Terms, ts: &[TermId]) -> bool
    ensures { IsTrue result → AllFormulas terms.now ts.now }
{
    for t in ts {
        if t.0 >= terms.len() || !is_truth(terms, *t) {
            return false;
        }
    }
    true
}

// Whether the formulas of a condition are in the arena.
fn is_there(terms: &Terms, condition: &Condition) -> bool
    ensures { IsTrue result → ConditionIn terms.now condition.now }
{
    are_formulas(terms, condition.given.as_slice())
        && condition.goal.0 < terms.len()
        && is_truth(terms, condition.goal)
}

// What is decided of the first of these conditions, if there is one.
fn first_decided(
    alloc: Global,
    terms: &Terms,
    conditions: &[Condition],
) -> Result<Option<Decided>, AllocError>
    requires in_range { AreIn terms.now conditions.now }
    requires formulas { AreFormulasIn terms.now conditions.now }
    ensures { IfOk result (λ o. IfSome o (λ d. VerdictIn d.terms d.verdict)) }
{
    if conditions.is_empty() {
        return Ok(None);
    }
    let decided = decide_with_facts(alloc, terms, &conditions[0], &default_limits())?;
    Ok(Some(decided))
}

// What is decided of the first condition of a program, if it has one.
#[tactic(auto, using(spv_verify::proofs::reporting::Formulas::all_formulas))]
fn decided_first(alloc: Global, program: &Program) -> Result<Option<Decided>, GenFault>
    requires typed { IsTrue (well_typed program.now) }
    ensures { IfOk result (λ o. IfSome o (λ d. VerdictIn d.terms d.verdict)) }
{
    let made = conditions(alloc, program)?;
    made.terms.law_arena();
    law_sorted_conditions();
    Ok(first_decided(alloc, &made.terms, made.list.as_slice())?)
}

// Whether what was decided has a proof that the checker accepts.
fn is_accepted(alloc: Global, decided: Decided) -> Result<bool, CheckStop>
    requires { VerdictIn decided.terms decided.verdict }
{
    let mut terms = decided.terms;
    let Verdict::Proved(proof) = &decided.verdict else {
        return Ok(false);
    };
    if !is_there(&terms, &decided.condition) {
        return Ok(false);
    }
    check(alloc, &mut terms, &decided.condition, proof)
}

// The typed program of a text, if it is one.
fn typed_text(alloc: Global, text: &[u8]) -> Option<Typed> {
    let mut names = Names::new(alloc);
    let tree = program(alloc, text, &mut names).ok()?;
    typed(alloc, &tree, &names).ok()
}

// Whether the first condition of a text is proved, by a proof that the checker accepts.
fn is_proved_and_accepted(alloc: Global, text: &[u8]) -> bool {
    let Some(program) = typed_text(alloc, text) else {
        return false;
    };
    program.law_well_typed();
    let Ok(Some(decided)) = decided_first(alloc, program.program()) else {
        return false;
    };
    matches!(is_accepted(alloc, decided), Ok(true))
}

#[test]
fn a_sum_of_inequalities(rt: HostRuntime) -> Result<(), Fail> {
    let text =
        b"PROGRAM gap; VAR x, y: INTEGER; ENTRY (x < y) AND (y < x + 1); EXIT FALSE; BEGIN END.";
    assert!(rt; is_proved_and_accepted(rt.alloc(), text));
    Ok(())
}

#[test]
fn cases_and_facts_of_arrays(rt: HostRuntime) -> Result<(), Fail> {
    let text = b"PROGRAM two; TYPE t = ARRAY [1..9] OF INTEGER; VAR r: t; i, j: INTEGER;
        EXIT (r[i] = 2) AND (r[j] >= 1); BEGIN r[j] := 1; r[i] := 2 END.";
    assert!(rt; is_proved_and_accepted(rt.alloc(), text));
    Ok(())
}

#[test]
fn what_is_false_has_no_proof(rt: HostRuntime) -> Result<(), Fail> {
    let text = b"PROGRAM u; VAR x: INTEGER; EXIT x < 3; BEGIN END.";
    assert!(rt; !is_proved_and_accepted(rt.alloc(), text));
    Ok(())
}
