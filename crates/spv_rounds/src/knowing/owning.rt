// The condition of which a claim is.

ghost use Rattle.std.specs.Prelude.{◌≡◌, IfOk};
ghost use Rattle.spv_search_terms.specs.condition_copy.Copies.{IsSameClaim};
ghost use Rattle.spv_rounds.specs.knowing.Known.{HasClaim};

use spv_logic::list::List;
use spv_proof_steps::candidates::negated;
use spv_term::{Condition, Terms};
use std::alloc::{AllocError, Global};

/// The condition of which another one, of another arena, claims that all is refuted: there its hypotheses come first, and then that its
/// goal is false.
pub fn own_condition(
    alloc: Global,
    from: &Terms,
    whole: &Condition,
    terms: &Terms,
    condition: &Condition,
) -> Result<Condition, AllocError>
    requires { HasClaim from.now whole.now terms.now condition.now }
    ensures { IfOk result (IsSameClaim from.now whole.now terms.now) }
{
    let _ = from;
    terms.law_arena();
    let given = condition.given.as_slice();
    let hypotheses = whole.given.as_slice().len();
    let mut own = Vec::new(alloc);
    own.extend_from_slice(&given[..hypotheses])?;
    match negated(terms, given[hypotheses]) {
        Some(goal) => Ok(Condition {
            given: List::from_vec(own),
            goal,
            origin: condition.origin,
        }),
        None => unreachable!(),
    }
}
