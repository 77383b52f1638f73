// How a derivation goes on backing what a graph was told, as the contract of a function that does nothing.

ghost use Rattle.spv_explanations.specs.equalities.Laws.{StaysBacked};

/// A derivation backs a graph that was told nothing; and it goes on doing so where terms are added, where an equality is told whose entry
/// states its sides, where facts are taken back, where the derivation goes on, and where the arena grows.
pub fn law_backed()
    ensures { StaysBacked }
{}
