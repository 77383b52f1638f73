//! Nodes, conditions, and why no node could be made.

use crate::lists::Arguments;
use spv_logic::list::List;
use spv_logic::{Head, Origin, TermId};
use std::alloc::AllocError;
use thiserror::Error;

/// A term of an arena: its head over the ids of its arguments.
#[derive(PartialEq, Eq, PartialOrd, Ord, Debug, Drop)]
pub struct Node {
    pub head: Head,
    pub args: Arguments,
}

/// A condition over an arena: it claims the goal wherever all that is given is true.
#[derive(Debug, Drop)]
pub struct Condition {
    pub given: List<TermId>,
    pub goal: TermId,
    pub origin: Origin,
}

/// Why a term could not be made.
#[derive(Clone, Copy, PartialEq, Eq, Debug, Error)]
pub enum TermFault {
    /// The arena has as many terms as it may have, and the term is not among them.
    #[error("too many terms")]
    Size,
    /// There is no memory for one more term.
    #[error("out of memory")]
    Memory,
}

impl From<AllocError> for TermFault {
    ghost use Rattle.std.specs.Prelude.{◌≡◌};
    ghost use Rattle.spv_term.specs.declared.nodes.TermFault.TheVariants.{Memory};

    ghost from_gives = { λ _ fault. fault ≡ Memory };

    fn from(_: AllocError) -> TermFault {
        TermFault::Memory
    }
}
