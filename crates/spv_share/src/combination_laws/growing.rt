// Both sides as the arena grows.

ghost use Rattle.spv_share.specs.combination_laws.Laws.{BothStay, LevelsStay};

/// Both sides stay sound, and levels stay levels, as the arena grows.
pub fn law_growing()
    ensures both { BothStay }
    ensures levels { LevelsStay }
{}
