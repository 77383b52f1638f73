// Values that facts give, listed beside the ids of terms.

/// Values that facts give, each list with an item for each term of an arena.
#[derive(Drop)]
pub struct Listed {
    /// The truth that a term that is no negation has by a fact.
    pub direct: Vec<Option<bool>>,
    /// The value of a term that is no negation.
    pub cores: Vec<Option<bool>>,
    /// The value of a term.
    pub all: Vec<Option<bool>>,
}
