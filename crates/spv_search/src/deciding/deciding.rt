// Deciding a condition.

ghost use Rattle.std.specs.Prelude.{◌≡◌, ◌<◌, length, IfOk};
ghost use Rattle.spv_term.specs.Arena.{AllBelow};
ghost use Rattle.spv_models.specs.leaf_models.Laws.{AreFormulas};
ghost use Rattle.spv_models.specs.leaf_models.Tables.{formulas_of};
ghost use Rattle.spv_proof_rules.specs.Stand.{question};
ghost use Rattle.spv_verdicts.specs.answers.Views.{IsDecided};
ghost use Rattle.spv_search.specs.deciding.Finding.{HasOpened, IsFoundFor};

use crate::search;
use spv_decisions::heuristic::Heuristic;
use spv_logic::list::List;
use spv_term::{Condition, Terms};
use spv_trail::search_setup::{Opened, Opening, open};
use spv_verdicts::answers::{Decided, Limit, Limits, Verdict, Wide};
use std::alloc::{AllocError, Global};

// What a search finds that was opened, and is about the formula of this number.
fn find(alloc: Global, opened: Opened, limits: &Limits, focus: usize) -> Result<Decided, AllocError>
    requires { HasOpened limits.now opened }
    ensures { IfOk result (IsFoundFor limits.now opened) }
{
    let Opened {
        terms,
        condition,
        subterms,
        listed,
        atoms,
        ground,
        both,
    } = opened;
    let heuristic = Heuristic::new(alloc, &terms, &condition, atoms.as_slice(), focus)?;
    let verdict = search(
        alloc,
        &terms,
        &condition,
        subterms.as_slice(),
        listed.as_slice(),
        atoms.as_slice(),
        &ground,
        both,
        limits,
        &heuristic,
    )?;
    Ok(Decided {
        terms,
        condition,
        verdict,
    })
}

/// Searches a proof of a condition, within limits, looking first at its goal, where `focus` is 0, or at the hypothesis of this number from 1, and at
/// what is near to it. The answer has the condition in an arena of its own, in which it claims the same, and what was found:
/// a proof, a table that falsifies it, or the limit that was reached.
pub fn decide_near(
    alloc: Global,
    terms: &Terms,
    condition: &Condition,
    limits: &Limits,
    focus: usize,
) -> Result<Decided, AllocError>
    requires given { AllBelow (length terms.now.nodes) condition.now.given }
    requires goal { condition.now.goal.0 < length terms.now.nodes }
    requires formulas { AreFormulas terms.now.shapes terms.now.decls (formulas_of (question terms.now condition.now).sequent) }
    ensures decided { IfOk result (IsDecided terms.now condition.now limits.now) }
{
    let opening = open(alloc, terms, condition, limits)?;
    match opening {
        Opening::Ready(opened) => find(alloc, opened, limits, focus),
        Opening::Terms { terms, condition } => Ok(Decided {
            terms,
            condition,
            verdict: Verdict::GaveUp(List::new(alloc), Limit::Terms(u64::from(limits.terms()))),
        }),
        Opening::Wide {
            terms,
            condition,
            atom,
        } => Ok(Decided {
            terms,
            condition,
            verdict: Verdict::GaveUp(List::new(alloc), Limit::Number(Wide::Form(atom))),
        }),
    }
}

/// Searches a proof of a condition, within limits. The answer has the condition in an arena of its own, in which it claims the same, and what was found:
/// a proof, a table that falsifies it, or the limit that was reached.
pub fn decide(
    alloc: Global,
    terms: &Terms,
    condition: &Condition,
    limits: &Limits,
) -> Result<Decided, AllocError>
    requires given { AllBelow (length terms.now.nodes) condition.now.given }
    requires goal { condition.now.goal.0 < length terms.now.nodes }
    requires formulas { AreFormulas terms.now.shapes terms.now.decls (formulas_of (question terms.now condition.now).sequent) }
    ensures decided { IfOk result (IsDecided terms.now condition.now limits.now) }
{
    decide_near(alloc, terms, condition, limits, 0)
}
