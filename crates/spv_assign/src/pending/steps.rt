// The steps that conditions in progress are made of.

use spv_logic::Origin;
use spv_term::TermId;

/// A hypothesis, and in front of how many conditions it stands.
#[derive(Clone, Copy, Debug)]
pub(crate) struct Assumption {
    /// The hypothesis.
    pub(crate) term: TermId,
    /// How many conditions it stands in front of: the first ones of those that were there.
    pub(crate) count: usize,
}

/// A step.
#[derive(Clone, Copy, Debug)]
pub(crate) enum Step {
    /// One condition more, in front of the others, without hypotheses: its goal, and where it comes from.
    Goal(TermId, Origin),
    /// One hypothesis more, in front of the first conditions.
    Given(Assumption),
}
