// Why a text is refused, and why there is no report.

ghost use Rattle.std.specs.Prelude.{◌≡◌};
ghost use Rattle.spv_verify.specs.refused.Told as spec;
ghost use Rattle.spv_verify.specs.declared.refused.fault.TextFault.TheVariants as text;
ghost use Rattle.spv_verify.specs.declared.refused.fault.VerifyFault.TheVariants as verify;

use crate::refused::refusal::Refusal;
use std::alloc::AllocError;
use thiserror::Error;

/// Why one text is refused.
#[derive(Debug, Drop, Error)]
pub enum TextFault {
    /// The text is refused.
    #[error("the text is refused")]
    Refused(Refusal),
    /// There is no memory for it.
    #[error("out of memory")]
    Memory,
}

impl From<AllocError> for TextFault {
    ghost from_gives = { λ _ fault. fault ≡ text.Memory };

    fn from(_: AllocError) -> TextFault {
        TextFault::Memory
    }
}

/// Which of the texts that a report is made of.
#[derive(Clone, Copy, PartialEq, Eq, Debug)]
pub enum Which {
    /// The program or the formula text.
    Program,
    /// The rule file.
    Rules,
    /// The listing whose proofs are checked.
    Listing,
}

/// Why there is no report.
#[derive(Debug, Drop, Error)]
pub enum VerifyFault {
    /// This text is refused.
    #[error("the text is refused")]
    Refused(Which, Refusal),
    /// There is no memory for it.
    #[error("out of memory")]
    Memory,
}

impl From<AllocError> for VerifyFault {
    ghost from_gives = { λ _ fault. fault ≡ verify.Memory };

    fn from(_: AllocError) -> VerifyFault {
        VerifyFault::Memory
    }
}

/// A fault of one of the texts.
pub(crate) fn fault_of(which: Which, fault: TextFault) -> VerifyFault
    ensures { result ≡ spec.fault_of which fault }
{
    match fault {
        TextFault::Refused(refusal) => VerifyFault::Refused(which, refusal),
        TextFault::Memory => VerifyFault::Memory,
    }
}
