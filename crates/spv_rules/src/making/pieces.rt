//! Terms in pieces.

use spv_logic::Head;
use spv_term::TermId;

/// A piece of a term: the pieces of its arguments come before that of its head.
#[derive(Clone, Copy, Debug)]
pub enum Piece {
    /// A term that is there.
    Known(TermId),
    /// A head over the last so many terms.
    Over(Head, usize),
}
