// What both sides of a path come to.

ghost use Rattle.std.specs.Prelude.{◌≡◌, length, IfOk, OnOk};
ghost use Rattle.spv_share.specs.Both.{IsBoth};
ghost use Rattle.spv_share.specs.States.{IsAnswer};
ghost use Rattle.spv_search.specs.Finding.{HasStated};

use spv_derivations::derivation::Derivation;
use spv_share::Shared;
use spv_term::Terms;
use spv_trail::backtracking::BranchTrail;
use std::alloc::{AllocError, Global};

// How many facts a path has; want of memory where a number of 32 bits does not hold it.
fn fact_count(derivation: &Derivation) -> Result<u32, AllocError>
    ensures { IfOk result (λ n. n ≡ length derivation.now) }
{
    let count = derivation.len();
    if count > u32::MAX as usize {
        return Err(AllocError);
    }
    Ok(count as u32)
}

/// What both sides of a path come to, where they tell each other equalities until nothing is new.
pub(crate) fn state(
    alloc: Global,
    terms: &Terms,
    path: &mut BranchTrail,
) -> Result<Shared, AllocError>
    requires { IsBoth terms.now path.old.both }
    ensures stated { OnOk result (HasStated terms.now path.old path.new) }
    ensures answer { IfOk result (IsAnswer terms.now path.new.both (length path.old.derivation)) }
{
    let facts = fact_count(&path.derivation)?;
    path.both.state(alloc, terms, facts)
}
