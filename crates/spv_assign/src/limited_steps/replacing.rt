// Replacements under the limit of the arena.

ghost use Rattle.std.specs.Prelude.{◌≡◌, map, IfOk};
ghost use Rattle.spv_term.specs.Arena.{Extends};
ghost use Rattle.spv_term.specs.substitution.Images.{ArePairs};
ghost use Rattle.spv_assign.specs.Conditions.{all_terms_in, conditions_of, pairs_of, AreIn};
ghost use Rattle.spv_meaning.specs.Before as before;
ghost use Rattle.spv_assign.specs.creation_trace.Events.{Answers};
ghost use Rattle.spv_assign.specs.creation_trace.StatementEvents.{several};

use crate::creation_trace::GenFault;
use crate::limited_steps::making::limited;
use crate::pending::Pending;
use spv_term::{TermId, Terms};
use std::alloc::Global;

/// Conditions with the second terms of pairs in the place of the first ones, all at once.
pub fn replaced(
    terms: &mut Terms,
    alloc: Global,
    pairs: &[(TermId, TermId)],
    rest: &Pending,
) -> Result<Pending, GenFault>
    requires rest { AreIn terms.old rest.now.items }
    requires pairs { ArePairs terms.old pairs.now }
    ensures conditions { IfOk result (λ cs. conditions_of terms.new cs.items
        ≡ before.replaced (pairs_of terms.old pairs.now) (conditions_of terms.old rest.now.items)) }
    ensures in_range { IfOk result (λ cs. AreIn terms.new cs.items) }
    ensures grows { Extends terms.old terms.new }
    ensures walk { Answers result (several (all_terms_in (before.replaced (pairs_of terms.old pairs.now) (conditions_of terms.old rest.now.items)))) terms.old terms.new }
{
    let made = rest.replaced(terms, alloc, pairs);
    limited(terms, made)
}
