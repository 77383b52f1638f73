// What is true of bounds that come from the facts of a derivation, each law the contract of a function that does nothing.

ghost use Rattle.spv_arithmetic_side.specs.farkas.Laws.{ToldIsRead, ToldIsSourced, SourcedStays, RefutedAbove, EndsByOne, AboveIsSourced, BelowIsSourced};

/// What is told of a relation, as what it says of its sides, and where the bounds come from that this is.
pub fn law_told()
    ensures read { ToldIsRead }
    ensures sourced { ToldIsSourced }
    ensures stays { SourcedStays }
{}

/// A contradiction of bounds by which what a step supposes is refuted, and one that ends the path.
pub fn law_refuted()
    ensures above { RefutedAbove }
    ensures ends { EndsByOne }
{}

/// Where the bounds come from that are what a step supposes.
pub fn law_supposed()
    ensures above { AboveIsSourced }
    ensures below { BelowIsSourced }
{}
