// Deciding a condition with facts of schemas at hand.

ghost use Rattle.std.specs.Prelude.{◌≡◌, ◌<◌, length, IfOk, IfSome};
ghost use Rattle.spv_term.specs.Arena.{AllBelow, sequent};
ghost use Rattle.spv_proof_rules.specs.Stand.{question};
ghost use Rattle.spv_models.specs.leaf_models.Laws.{AreFormulas};
ghost use Rattle.spv_models.specs.leaf_models.Tables.{formulas_of};
ghost use Rattle.spv_search_terms.specs.condition_copy.Copies.{IsSameClaim};
ghost use Rattle.spv_verdicts.specs.answers.Views.{IsDecidedWith};
ghost use Rattle.spv_verdicts.specs.Schemas.{HasTooManyCounted, enlarged};
ghost use Rattle.spv_verdicts.specs.Verdicts.{Limits};
ghost use Rattle.spv_fact_search.specs.Enlarging.{IsEnlarged, IsEnough};
ghost use Rattle.spv_fact_search.specs.Guessing.{IsUnprovedBy};

use crate::enlarging::{Enlarged, enlarge};
use crate::numbers::carried;
use crate::stages::decide_in_stages;
use crate::telling::of_condition;
use crate::trying::shown_near;
use spv_logic::list::List;
use spv_proof_steps::candidates::negated;
use spv_search_terms::condition_copy::copy_condition;
use spv_table::Table;
use spv_term::{Condition, Terms};
use spv_trimming::with_shorter_proof;
use spv_verdicts::answers::{Decided, Limit, Limits, Unproved, Verdict};
use std::alloc::{AllocError, Global};

// The condition of which another one, of another arena, claims that all is refuted: there its hypotheses come first, and then that its
// goal is false.
fn own_condition(
    alloc: Global,
    from: &Terms,
    whole: &Condition,
    terms: &Terms,
    condition: &Condition,
) -> Result<Condition, AllocError>
    requires given { AllBelow (length terms.now.nodes) condition.now.given }
    requires claim { sequent terms.now condition.now ≡ (enlarged (question from.now whole.now)).sequent }
    requires origin { condition.now.origin ≡ whole.now.origin }
    ensures { IfOk result (IsSameClaim from.now whole.now terms.now) }
{
    let _ = from;
    terms.law_arena();
    let given = condition.given.as_slice();
    let hypotheses = whole.given.as_slice().len();
    let mut own = Vec::new(alloc);
    own.extend_from_slice(&given[..hypotheses])?;
    match negated(terms, given[hypotheses]) {
        Some(goal) => Ok(Condition {
            given: List::from_vec(own),
            goal,
            origin: condition.origin,
        }),
        None => unreachable!(),
    }
}

// That more terms count than may, told of a condition in an arena of its own.
fn too_many(alloc: Global, terms: &Terms, condition: &Condition) -> Result<Decided, AllocError>
    requires given { AllBelow (length terms.now.nodes) condition.now.given }
    requires goal { condition.now.goal.0 < length terms.now.nodes }
    requires many { HasTooManyCounted (question terms.now condition.now) 1000000 }
    ensures { IfOk result (λ d. (limits : Limits) → IsDecidedWith terms.now condition.now limits d) }
{
    match copy_condition(alloc, terms, condition, u32::MAX) {
        Ok(copied) => Ok(Decided {
            terms: copied.terms,
            condition: copied.condition,
            verdict: Verdict::GaveUp(List::new(alloc), Limit::Terms(1_000_000)),
        }),
        Err(_) => Err(AllocError),
    }
}

/// Searches a proof of a condition, within limits, where facts of schemas about the terms that it uses are at hand. The answer has the
/// condition in an arena of its own, in which it claims the same, and what was found: a proof; a table that falsifies it, in which all
/// of these facts are true; or the limit that was reached.
pub fn decide_with_facts(
    alloc: Global,
    terms: &Terms,
    condition: &Condition,
    limits: &Limits,
) -> Result<Decided, AllocError>
    requires given { AllBelow (length terms.now.nodes) condition.now.given }
    requires goal { condition.now.goal.0 < length terms.now.nodes }
    requires formulas { AreFormulas terms.now.shapes terms.now.decls (formulas_of (question terms.now condition.now).sequent) }
    ensures decided { IfOk result (IsDecidedWith terms.now condition.now limits.now) }
{
    let Some(enlarged) = enlarge(alloc, terms, condition)? else {
        return too_many(alloc, terms, condition);
    };
    let searched = limits.with_terms(enlarged.most);
    let found = decide_in_stages(
        alloc,
        &enlarged.terms,
        &enlarged.condition,
        &searched,
        condition.given.as_slice().len() + 1,
    )?;
    let Decided {
        terms: own,
        condition: claim,
        verdict,
    } = with_shorter_proof(alloc, found)?;
    let told = own_condition(alloc, terms, condition, &own, &claim)?;
    let verdict = of_condition(alloc, &own, &told, claim.goal, &searched, verdict)?;
    Ok(Decided {
        terms: own,
        condition: told,
        verdict,
    })
}

// What a table shows of all that is refuted with a condition, told of the condition.
fn shown(
    alloc: Global,
    terms: &Terms,
    condition: &Condition,
    limits: &Limits,
    enlarged: Enlarged,
    found: Unproved,
) -> Result<Decided, AllocError>
    requires enlarged { IsEnlarged terms.now condition.now enlarged.terms enlarged.condition }
    requires enough { IsEnough (question terms.now condition.now) enlarged.most }
    requires found { IsUnprovedBy enlarged.terms enlarged.condition found }
    ensures { IfOk result (IsDecidedWith terms.now condition.now limits.now) }
{
    let searched = limits.with_terms(enlarged.most);
    let told = own_condition(
        alloc,
        terms,
        condition,
        &enlarged.terms,
        &enlarged.condition,
    )?;
    let verdict = of_condition(
        alloc,
        &enlarged.terms,
        &told,
        enlarged.condition.goal,
        &searched,
        Verdict::Unproved(found),
    )?;
    Ok(Decided {
        terms: enlarged.terms,
        condition: told,
        verdict,
    })
}

// What is decided of a condition by a table near to one of before, if one falsifies it.
fn decide_near_table(
    alloc: Global,
    terms: &Terms,
    condition: &Condition,
    limits: &Limits,
    table: &Table,
) -> Result<Option<Decided>, AllocError>
    requires given { AllBelow (length terms.now.nodes) condition.now.given }
    requires goal { condition.now.goal.0 < length terms.now.nodes }
    requires formulas { AreFormulas terms.now.shapes terms.now.decls (formulas_of (question terms.now condition.now).sequent) }
    ensures { IfOk result (λ o. IfSome o (IsDecidedWith terms.now condition.now limits.now)) }
{
    let Some(enlarged) = enlarge(alloc, terms, condition)? else {
        return Ok(None);
    };
    let before = carried(alloc, terms, condition, table)?;
    let found = shown_near(alloc, &enlarged, before)?;
    match found {
        Some(found) => {
            let decided = shown(alloc, terms, condition, limits, enlarged, found)?;
            Ok(Some(decided))
        }
        None => Ok(None),
    }
}

/// What `decide_with_facts` decides of a condition, where a table is at hand in which most of its hypotheses may be true: before a search begins, tables
/// near to it are tried, and one that falsifies the condition and all facts of schemas is the answer. Any table may be given.
pub fn decide_from(
    alloc: Global,
    terms: &Terms,
    condition: &Condition,
    limits: &Limits,
    table: &Table,
) -> Result<Decided, AllocError>
    requires given { AllBelow (length terms.now.nodes) condition.now.given }
    requires goal { condition.now.goal.0 < length terms.now.nodes }
    requires formulas { AreFormulas terms.now.shapes terms.now.decls (formulas_of (question terms.now condition.now).sequent) }
    ensures decided { IfOk result (IsDecidedWith terms.now condition.now limits.now) }
{
    let near = decide_near_table(alloc, terms, condition, limits, table)?;
    match near {
        Some(decided) => Ok(decided),
        None => decide_with_facts(alloc, terms, condition, limits),
    }
}
