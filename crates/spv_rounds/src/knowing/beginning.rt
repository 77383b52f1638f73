// What is known of a condition before any round.

ghost use Rattle.std.specs.Prelude.{◌≡◌, ◌<◌, ◌++◌, ◌∷◌, [], List as Items, length, IfOk};
ghost use Rattle.spv_term.specs.Arena.{AllBelow};
ghost use Rattle.spv_proof_rules.specs.Rules.{Rule};
ghost use Rattle.spv_proof_rules.specs.Stand.{question};
ghost use Rattle.spv_models.specs.leaf_models.Laws.{AreFormulas};
ghost use Rattle.spv_models.specs.leaf_models.Tables.{formulas_of};
ghost use Rattle.spv_verdicts.specs.Verdicts.{Limits};
ghost use Rattle.spv_rounds.specs.knowing.Known.{IsKnown};

use crate::knowing::known::Known;
use spv_logic::Head;
use spv_logic::list::List;
use spv_search_terms::condition_copy::copy_condition;
use spv_search_terms::subterms::made;
use spv_term::{Condition, TermFault, TermId, Terms};
use std::alloc::{AllocError, Global};

// Hypotheses, and one more.
fn with_one(alloc: Global, first: &[TermId], one: TermId) -> Result<List<TermId>, AllocError>
    ensures { IfOk result (λ ids. ids ≡ first.now ++ one ∷ []) }
{
    let mut ids = Vec::new(alloc);
    ids.extend_from_slice(first)?;
    ids.push(one)?;
    Ok(List::from_vec(ids))
}

// What is known of a condition. `Size` comes where its terms are more than there are ids.
fn begun(alloc: Global, terms: &Terms, condition: &Condition) -> Result<Known, TermFault>
    requires given { AllBelow (length terms.now.nodes) condition.now.given }
    requires goal { condition.now.goal.0 < length terms.now.nodes }
    requires formulas { AreFormulas terms.now.shapes terms.now.decls (formulas_of (question terms.now condition.now).sequent) }
    ensures { IfOk result (λ k. (rules : Items Rule) (limits : Limits) → IsKnown rules terms.now condition.now limits k) }
{
    let copied = copy_condition(alloc, terms, condition, u32::MAX)?;
    let mut own = copied.terms;
    let claim = copied.condition;
    own.law_arena();
    let denied = made(&mut own, Head::Not, &[claim.goal])?;
    let given = with_one(alloc, claim.given.as_slice(), denied)?;
    Ok(Known {
        terms: own,
        claim: Condition {
            given,
            goal: copied.base.falsity,
            origin: claim.origin,
        },
        rounds: Vec::new(alloc),
    })
}

/// What is known of a condition before any round. There is no memory where its terms are more than there are ids.
pub fn begin(alloc: Global, terms: &Terms, condition: &Condition) -> Result<Known, AllocError>
    requires given { AllBelow (length terms.now.nodes) condition.now.given }
    requires goal { condition.now.goal.0 < length terms.now.nodes }
    requires formulas { AreFormulas terms.now.shapes terms.now.decls (formulas_of (question terms.now condition.now).sequent) }
    ensures { IfOk result (λ k. (rules : Items Rule) (limits : Limits) → IsKnown rules terms.now condition.now limits k) }
{
    match begun(alloc, terms, condition) {
        Ok(known) => Ok(known),
        Err(_) => Err(AllocError),
    }
}
