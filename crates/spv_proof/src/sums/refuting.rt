// Whether sums of multiples show a claim.

ghost use Rattle.std.specs.Prelude.{◌≡◌, ℕ, length, None, Some, IfOk, OnOk, IfErr, IfSome};
ghost use Rattle.spv_logic.specs.Terms.{Term};
ghost use Rattle.spv_term.specs.Arena.{AllBelow};
ghost use Rattle.spv_proof.specs.sums.Readings.{ClaimIn};
ghost use Rattle.spv_proof.specs.sums.Added.{fault_halt, FaultIn, halt_of_claim, is_shown};

use crate::sums::adding::sum_of;
use crate::sums::fault::SumFault;
use crate::sums::reading::Claim;
use spv_frac::Frac;
use spv_term::{TermId, Terms};
use std::alloc::Global;

/// Whether multiples of facts, each a multiplier and a fact's number from 1, contradict that a claim is
/// false: number 0 stands for this. Their forms are made and added in the cited order, within a form the
/// parts in ascending order and then the constant; each form is made once for each citation.
///
/// An error names the first operation, or the first relation, that does not fit; `Shown` where that is
/// the relation that the sum is to show.
pub fn refutes(
    alloc: Global,
    terms: &Terms,
    facts: &[TermId],
    claim: Claim,
    multiples: &[(Frac, u32)],
) -> Result<bool, SumFault>
    requires facts { AllBelow (length terms.now.nodes) facts.now }
    requires claim { ClaimIn terms.now claim }
    ensures value { IfOk result (λ b. b ≡ is_shown terms.now facts.now claim multiples.now) }
    ensures unstopped { OnOk result ((most : ℕ) → (shown : Term)
        → halt_of_claim terms.now facts.now claim multiples.now most shown ≡ None) }
    ensures stop { IfErr result (λ e. (most : ℕ) → (shown : Term)
        → IfSome (fault_halt terms.now most shown e) (λ h. halt_of_claim terms.now facts.now claim multiples.now most shown ≡ Some h)) }
    ensures in_range { IfErr result (FaultIn terms.now) }
{
    match sum_of(alloc, terms, facts, claim, multiples)? {
        Some(sum) => Ok(sum.is_above_zero()),
        None => Ok(false),
    }
}
