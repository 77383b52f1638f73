// Why the truths of formulas in a table are not known.

use spv_table::WideValue;
use spv_term::TermId;
use std::alloc::AllocError;
use thiserror::Error;

/// Why it is not known whether a table shows a condition false.
#[derive(Clone, Copy, Debug, PartialEq, Eq, Error)]
pub enum SurvivingFault {
    /// The evaluation of this term meets this operation first, and it is too wide.
    #[error("a number is too wide")]
    Wide(TermId, WideValue),
    /// There is no memory for the values.
    #[error("out of memory")]
    Memory,
}

impl From<AllocError> for SurvivingFault {
    ghost use Rattle.std.specs.Prelude.{◌≡◌};
    ghost use Rattle.spv_verdicts.specs.declared.model_check.faults.SurvivingFault.TheVariants.{Memory};

    ghost from_gives = { λ _ fault. fault ≡ Memory };

    fn from(_: AllocError) -> SurvivingFault {
        SurvivingFault::Memory
    }
}
