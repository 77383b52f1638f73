//! Why bytes are no listing.

ghost use Rattle.std.specs.Prelude.{◌≡◌};
ghost use Rattle.spv_listing_values.specs.declared.fault.ListFault.TheVariants.{Memory};

use std::alloc::AllocError;
use thiserror::Error;

/// Why bytes are no listing. A number is a line; the first line is 1.
#[derive(Clone, Copy, PartialEq, Eq, Debug, Error)]
pub enum ListFault {
    /// More than 67108864 bytes.
    #[error("the listing is too long")]
    TooLong,
    /// No listing has these bytes.
    #[error("line {0}: no listing has these bytes")]
    Form(u32),
    /// There was no memory left.
    #[error("out of memory")]
    Memory,
}

impl From<AllocError> for ListFault {
    ghost from_gives = { λ _ fault. fault ≡ Memory };

    fn from(_refused: AllocError) -> ListFault {
        ListFault::Memory
    }
}
