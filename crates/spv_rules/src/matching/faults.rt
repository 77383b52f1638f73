// Why there are no matches.

use spv_table::WideValue;
use spv_term::TermId;
use std::alloc::AllocError;
use thiserror::Error;

/// Why the instances that terms call for are not known.
#[derive(Clone, Copy, Debug, PartialEq, Eq, Error)]
pub enum MatchFault {
    /// This term's value is too wide by this operation, and no test of an earlier rule, or used term or argument of the same rule, meets
    /// such a term.
    #[error("a number is too wide")]
    Wide(TermId, WideValue),
    /// There is no memory for the matches.
    #[error("out of memory")]
    Memory,
}

impl From<AllocError> for MatchFault {
    ghost use Rattle.std.specs.Prelude.{◌≡◌};
    ghost use Rattle.spv_rules.specs.declared.matching.faults.MatchFault.TheVariants.{Memory};

    ghost from_gives = { λ _ fault. fault ≡ Memory };

    fn from(_: AllocError) -> MatchFault {
        MatchFault::Memory
    }
}
