// What is true of readings, each law the contract of a function that does nothing.

ghost use Rattle.spv_tableau_rules.specs.constraints.Laws.{LiteralIsRead, BelowIsRead, AboveIsRead, IsBoundOn, IsOnRow, PlaceIsOfRow, PlaceIsThere, RowsAreIn, NoneIsSourced, OneMoreIsSourced, FirstAreSourced, KeptAsRead, KeptWithFacts, KeptInStep, ContradictionRefutes, RefutedAddsImpossible, IsImpossible, SupposesAbove, SupposesBelow, RefutedAddsEquation, DifferenceIsWorth, RowIsWorth, MetWhereTrue, TrueWhereStanding, EqualWhereTrue, TrueWhereEqual};

/// How literals are read.
pub fn law_literals()
    ensures literal { LiteralIsRead }
    ensures below { BelowIsRead }
    ensures above { AboveIsRead }
{}

/// The bounds that a saying is.
pub fn law_bounds()
    ensures on { IsBoundOn }
    ensures row { IsOnRow }
{}

/// The rows of relations, in order.
pub fn law_rows()
    ensures of_row { PlaceIsOfRow }
    ensures there { PlaceIsThere }
    ensures in_range { RowsAreIn }
{}

/// Where bounds come from, as they are added and taken back.
pub fn law_sources()
    ensures none { NoneIsSourced }
    ensures one_more { OneMoreIsSourced }
    ensures first { FirstAreSourced }
    ensures read { KeptAsRead }
    ensures facts { KeptWithFacts }
    ensures step { KeptInStep }
{}

/// A contradiction of bounds is a contradiction of the facts that they come from.
pub fn law_refuted()
    ensures { ContradictionRefutes }
{}

/// The step that ends a path by such a contradiction.
pub fn law_impossible()
    ensures adds { RefutedAddsImpossible }
    ensures impossible { IsImpossible }
{}

/// The step that shows an equality by two of them, and what each list supposes.
pub fn law_equality()
    ensures adds { RefutedAddsEquation }
    ensures above { SupposesAbove }
    ensures below { SupposesBelow }
{}

/// What differences are worth at a point.
pub fn law_difference()
    ensures difference { DifferenceIsWorth }
    ensures row { RowIsWorth }
{}

/// Bounds are met where what they say is true.
pub fn law_met()
    ensures met { MetWhereTrue }
    ensures standing { TrueWhereStanding }
{}

/// An equation is true where its sides have one value.
pub fn law_equal()
    ensures equal { EqualWhereTrue }
    ensures true_where { TrueWhereEqual }
{}
