// What is known, and what was settled.

use spv_logic::list::List;
use spv_term::{Condition, TermId, Terms};
use spv_verdicts::answers::Round;

/// What is known of a condition after some rounds.
#[derive(Drop)]
pub struct Known {
    /// An arena of its own.
    pub terms: Terms,
    /// The claim that its hypotheses, that its goal is false, and what the members of the rounds say are never true together.
    pub claim: Condition,
    /// The rounds.
    pub rounds: Vec<Round>,
}

/// A condition with rounds in the arena where a verdict was found.
#[derive(Drop)]
pub struct Settled {
    /// The arena.
    pub terms: Terms,
    /// The condition.
    pub condition: Condition,
    /// The term FALSE.
    pub falsity: TermId,
    /// The rounds.
    pub rounds: List<Round>,
    /// What their members say, in order.
    pub formulas: List<TermId>,
}
