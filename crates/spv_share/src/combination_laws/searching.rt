// The atoms of a search as relations.

ghost use Rattle.spv_share.specs.combination_laws.Enough.{SearchIsEnough};

/// Where both sides are over the atoms of a search over formulas, and each literal was told of a question of it, the relations are
/// enough.
pub fn law_search()
    ensures { SearchIsEnough }
{}
