//! Why a sum could not be made.

use spv_frac::{Frac, Op};
use spv_term::TermId;
use std::alloc::AllocError;
use thiserror::Error;

/// Why a sum could not be made.
#[derive(Clone, Copy, Debug, Error)]
pub enum SumFault {
    /// The next operation, on these operands, does not fit.
    #[error("a number is too wide")]
    Wide(Op, Frac, Frac),
    /// The form of this relation, which is cited, does not fit.
    #[error("a linear form is too wide")]
    Form(TermId),
    /// The form of the relation that the sum is to show does not fit, where its negation is cited.
    #[error("the linear form of what is to be shown is too wide")]
    Shown,
    /// There is no memory.
    #[error("out of memory")]
    Memory,
}

impl From<AllocError> for SumFault {
    ghost use Rattle.std.specs.Prelude.{◌≡◌};
    ghost use Rattle.spv_proof.specs.declared.sums.fault.SumFault.TheVariants.{Memory};

    ghost from_gives = { λ _ fault. fault ≡ Memory };

    fn from(_: AllocError) -> SumFault {
        SumFault::Memory
    }
}
