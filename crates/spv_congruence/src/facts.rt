// What is told, and how far a graph was.

use spv_term::TermId;
use spv_union_find::classes::Cause;

/// What was told of two terms: that they are equal, or that they are separate.
#[derive(Clone, Copy, Debug)]
pub struct Fact {
    pub left: TermId,
    pub right: TermId,
    /// The number that the teller gave it.
    pub why: u32,
    pub equal: bool,
}

/// How many terms, joins and signatures there were.
#[derive(Clone, Copy, Debug)]
pub struct Level {
    pub added: usize,
    pub joins: usize,
    pub rows: usize,
}

/// Two terms that are to be joined, and why.
#[derive(Clone, Copy, Debug)]
pub(crate) struct Equal {
    pub(crate) left: TermId,
    pub(crate) right: TermId,
    pub(crate) cause: Cause,
}

/// Why two terms that stand one behind the other in an explanation are equal.
#[derive(Clone, Copy, PartialEq, Eq, Debug)]
pub enum Link {
    /// It was told, with this number.
    Told(u32),
    /// They are of one head, and their arguments are equal.
    Congruent(TermId, TermId),
}
