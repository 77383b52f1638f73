//! Why a check ends before its proof does.

use spv_frac::{Frac, Op};
use spv_term::{TermFault, TermId};
use std::alloc::AllocError;
use thiserror::Error;

/// Why a proof could not be checked.
#[derive(Clone, Copy, Debug, Error)]
pub enum CheckStop {
    /// The next operation of a sum of the proof, on these operands, does not fit.
    #[error("a number is too wide")]
    Wide(Op, Frac, Frac),
    /// The form of this relation, which a sum of the proof reads or shows, does not fit.
    #[error("a linear form is too wide")]
    Form(TermId),
    /// A fact is a new term, and there may be no more.
    #[error("too many terms")]
    Size,
    /// There is no memory.
    #[error("out of memory")]
    Memory,
}

impl From<AllocError> for CheckStop {
    ghost use Rattle.std.specs.Prelude.{◌≡◌};
    ghost use Rattle.spv_proof.specs.declared.checker.stops.CheckStop.TheVariants.{Memory};

    ghost from_gives = { λ _ stop. stop ≡ Memory };

    fn from(_: AllocError) -> CheckStop {
        CheckStop::Memory
    }
}

impl From<TermFault> for CheckStop {
    ghost use Rattle.std.specs.Prelude.{◌≡◌};
    ghost use Rattle.spv_proof.specs.checker.Faults.{stop_of};

    ghost from_gives = { λ fault stop. stop ≡ stop_of fault };

    fn from(fault: TermFault) -> CheckStop {
        match fault {
            TermFault::Size => CheckStop::Size,
            TermFault::Memory => CheckStop::Memory,
        }
    }
}
