// What comes of opening a search.

use crate::backtracking::Ground;
use spv_search_terms::subterms::IdSet;
use spv_share::Both;
use spv_term::{Condition, TermId, Terms};

/// A search that was opened: a copy of the condition in an arena of its own, and what stays the same on all its paths.
#[derive(Drop)]
pub struct Opened {
    /// The arena of the copy: 0, 1, TRUE and FALSE, the subterms of the condition, and the equations that are atoms.
    pub terms: Terms,
    /// The condition over this arena.
    pub condition: Condition,
    /// The different subterms of its formulas, in the order of their first appearance, arguments first.
    pub subterms: IdSet,
    /// Which of them a table lists, one by one.
    pub listed: Vec<bool>,
    /// The atoms, in order.
    pub atoms: Vec<TermId>,
    /// The questions, and the connectives of the arena.
    pub ground: Ground,
    /// Both sides for the atoms. They were told nothing.
    pub both: Both,
}

/// What comes of opening a search.
#[derive(Drop)]
pub enum Opening {
    /// The search may begin.
    Ready(Opened),
    /// The search would have more terms than its limits say.
    Terms {
        /// An arena of the condition, which may have more terms than a search.
        terms: Terms,
        /// The condition over this arena.
        condition: Condition,
    },
    /// A number in the forms of a relation does not fit.
    Wide {
        /// The arena of the condition and of the relation.
        terms: Terms,
        /// The condition over this arena.
        condition: Condition,
        /// The relation, which is an atom.
        atom: TermId,
    },
}
