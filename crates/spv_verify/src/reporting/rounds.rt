// Rounds of rules round a search.

ghost use Rattle.std.specs.Prelude.{◌≡◌, ◌<◌, length, IfOk};
ghost use Rattle.spv_term.specs.Arena.{AllBelow};
ghost use Rattle.spv_proof_rules.specs.Stand.{question};
ghost use Rattle.spv_models.specs.leaf_models.Laws.{AreFormulas};
ghost use Rattle.spv_models.specs.leaf_models.Tables.{formulas_of};
ghost use Rattle.spv_rules.specs.RuleSets.{rules_in};
ghost use Rattle.spv_verdicts.specs.answers.Views.{IsDecidedWith};
ghost use Rattle.spv_rounds.specs.Right.{IsDecidedByRounds, IsDecidedUnder};
ghost use Rattle.spv_rounds.specs.knowing.Known.{IsKnown};
ghost use Rattle.spv_rounds.specs.judging.Judged.{Judged};

use spv_fact_search::{decide_from, decide_with_facts};
use spv_rounds::judging::turn_by;
use spv_rounds::knowing::{Known, begin};
use spv_rules::Rules;
use spv_term::{Condition, Terms};
use spv_verdicts::answers::{Decided, Limits};
use std::alloc::{AllocError, Global};

// What is decided of what is known: first by a table near to that of the last round, in which all was true that was known before it.
fn decide_known(alloc: Global, known: &Known, limits: &Limits) -> Result<Decided, AllocError>
    requires given { AllBelow (length known.now.terms.nodes) known.now.claim.given }
    requires goal { known.now.claim.goal.0 < length known.now.terms.nodes }
    requires formulas { AreFormulas known.now.terms.shapes known.now.terms.decls (formulas_of (question known.now.terms known.now.claim).sequent) }
    ensures { IfOk result (IsDecidedWith known.now.terms known.now.claim limits.now) }
{
    match known.rounds.as_slice().last() {
        Some(round) => decide_from(alloc, &known.terms, &known.claim, limits, &round.table),
        None => decide_with_facts(alloc, &known.terms, &known.claim, limits),
    }
}

// One search, and what it makes: a verdict, or a round more.
fn turn(
    alloc: Global,
    rules: &Rules,
    terms: &Terms,
    condition: &Condition,
    limits: &Limits,
    known: &mut Known,
) -> Result<Option<Decided>, AllocError>
    requires known { IsKnown (rules_in rules.now) terms.now condition.now limits.now known.old }
    requires shapes { rules.now.arena.shapes ≡ terms.now.shapes }
    requires decls { rules.now.arena.decls ≡ terms.now.decls }
    ensures { IfOk result (λ o. Judged (rules_in rules.now) terms.now condition.now limits.now known.old o known.new) }
{
    let decided = decide_known(alloc, known, limits)?;
    turn_by(alloc, rules, terms, condition, limits, known, decided)
}

// Round after round.
fn decide_by_rounds(
    alloc: Global,
    terms: &Terms,
    condition: &Condition,
    rules: &Rules,
    limits: &Limits,
) -> Result<Decided, AllocError>
    requires given { AllBelow (length terms.now.nodes) condition.now.given }
    requires goal { condition.now.goal.0 < length terms.now.nodes }
    requires formulas { AreFormulas terms.now.shapes terms.now.decls (formulas_of (question terms.now condition.now).sequent) }
    requires shapes { rules.now.arena.shapes ≡ terms.now.shapes }
    requires decls { rules.now.arena.decls ≡ terms.now.decls }
    ensures { IfOk result (IsDecidedByRounds (rules_in rules.now) terms.now condition.now limits.now) }
{
    let mut known = begin(alloc, terms, condition)?;
    loop {
        if let Some(decided) = turn(alloc, rules, terms, condition, limits, &mut known)? {
            return Ok(decided);
        }
    }
}

/// Searches a proof of a condition under rules, within limits. Where a table falsifies all that is known, the instances of rules that it calls for
/// are added, and the search begins anew. The answer has the condition in an arena of its own, in which it claims the same, and what was
/// found: a proof with steps of rules; a table that falsifies the condition, all of its facts of schemas and all instances, and calls for no further
/// one; or the rounds that were made and the limit that was reached. Without rules it is what `decide_with_facts` answers.
pub(crate) fn decide_under(
    alloc: Global,
    terms: &Terms,
    condition: &Condition,
    rules: &Rules,
    limits: &Limits,
) -> Result<Decided, AllocError>
    requires given { AllBelow (length terms.now.nodes) condition.now.given }
    requires goal { condition.now.goal.0 < length terms.now.nodes }
    requires formulas { AreFormulas terms.now.shapes terms.now.decls (formulas_of (question terms.now condition.now).sequent) }
    requires shapes { rules.now.arena.shapes ≡ terms.now.shapes }
    requires decls { rules.now.arena.decls ≡ terms.now.decls }
    ensures { IfOk result (IsDecidedUnder (rules_in rules.now) terms.now condition.now limits.now) }
{
    if rules.len() == 0 {
        return decide_with_facts(alloc, terms, condition, limits);
    }
    decide_by_rounds(alloc, terms, condition, rules, limits)
}
