// Why conditions could not be made.

ghost use Rattle.std.specs.Prelude.{◌≡◌};
ghost use Rattle.spv_assign.specs.declared.creation_trace.faults.GenFault.TheVariants.{Memory};

use std::alloc::AllocError;
use thiserror::Error;

/// How many conditions a list may have.
pub const LONGEST_LIST: u32 = 20000;

/// Why conditions could not be made: the first limit that the walk meets.
#[derive(Clone, Copy, PartialEq, Eq, Debug, Error)]
pub enum GenFault {
    /// A list has more conditions than this.
    #[error("more than {0} conditions")]
    Conditions(u32),
    /// More different terms than this are needed.
    #[error("more than {0} terms")]
    Terms(u32),
    /// There is no memory left.
    #[error("out of memory")]
    Memory,
}

impl From<AllocError> for GenFault {
    ghost from_gives = { λ _ fault. fault ≡ Memory };

    fn from(_: AllocError) -> GenFault {
        GenFault::Memory
    }
}
