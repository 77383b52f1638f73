// Terms in the place of variables in steps.

ghost use Rattle.std.specs.Prelude.{◌≡◌, map, length, Err, IfOk};
ghost use Rattle.spv_term.specs.declared.nodes.TermFault.TheVariants.{Size};
ghost use Rattle.spv_term.specs.Arena.{Extends};
ghost use Rattle.spv_term.specs.substitution.Images.{ArePairs};
ghost use Rattle.spv_term.specs.substitution.Parts.{AddsParts, LacksPart};
ghost use Rattle.spv_meaning.specs.Before as before;
ghost use Rattle.spv_assign.specs.Conditions.{all_terms_in, conditions_of, pairs_of, sorts_of, AreIn};
ghost use Rattle.spv_assign.specs.pending.Steps.{AreSteps, conditions_in};

use crate::pending::queues::{ids, with_ids};
use crate::pending::steps::Step;
use crate::pending::substituting::images_of;
use spv_term::{TermFault, TermId, Terms};
use std::alloc::Global;
use std::collections::VecDeque;

// Steps whose conditions have the second terms of pairs in the place of the first ones. Each hypothesis is gone
// through once.
pub(crate) fn replaced(
    terms: &mut Terms,
    alloc: Global,
    pairs: &[(TermId, TermId)],
    steps: &VecDeque<Step>,
) -> Result<VecDeque<Step>, TermFault>
    requires steps { AreSteps steps.now.items }
    requires there { AreIn terms.old (conditions_in steps.now.items) }
    requires pairs { ArePairs terms.old pairs.now }
    ensures conditions { IfOk result (λ all. conditions_of terms.new (conditions_in all.items)
        ≡ before.replaced (pairs_of terms.old pairs.now) (conditions_of terms.old (conditions_in steps.now.items))) }
    ensures sorts { IfOk result (λ all. map (sorts_of terms.new) (conditions_in all.items) ≡ map (sorts_of terms.old) (conditions_in steps.now.items)) }
    ensures in_range { IfOk result (λ all. AreIn terms.new (conditions_in all.items)) }
    ensures steps { IfOk result (λ all. AreSteps all.items) }
    ensures as_many { IfOk result (λ all. length (conditions_in all.items) ≡ length (conditions_in steps.now.items)) }
    ensures grows { Extends terms.old terms.new }
    ensures only { AddsParts terms.old terms.new
        (all_terms_in (before.replaced (pairs_of terms.old pairs.now) (conditions_of terms.old (conditions_in steps.now.items)))) }
    ensures size { result ≡ Err Size → LacksPart terms.new
        (all_terms_in (before.replaced (pairs_of terms.old pairs.now) (conditions_of terms.old (conditions_in steps.now.items)))) }
{
    let list = ids(alloc, steps)?;
    let images = images_of(terms, alloc, list.as_slice(), pairs)?;
    let made = with_ids(alloc, steps, images.as_slice())?;
    Ok(made)
}
