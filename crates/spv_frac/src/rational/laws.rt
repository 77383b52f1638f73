// What rational numbers obey, each law the contract of a function that does nothing.

ghost use Rattle.std.specs.Prelude.{pos};
ghost use Rattle.spv_frac.specs.rational.Rational.{whole, plus, times};
ghost use Rattle.spv_frac.specs.rational.Laws.{OneValue, Commutes, Associates, HasUnit, Distributes, Cancels, TimesZero, WholeSum, WholeProduct, NumberOfLowest, NumberOfSum, NumberOfProduct, NotPositiveSum, NotPositiveProduct, ZeroIsZero};

/// Sums.
pub fn law_sums()
    ensures one_value { OneValue }
    ensures commutative { Commutes plus }
    ensures associative { Associates plus }
    ensures zero { HasUnit plus (whole (pos 0)) }
    ensures opposite { Cancels }
{}

/// Products.
pub fn law_products()
    ensures commutative { Commutes times }
    ensures associative { Associates times }
    ensures one { HasUnit times (whole (pos 1)) }
    ensures zero { TimesZero }
    ensures distributive { Distributes }
{}

/// Whole numbers among them.
pub fn law_whole()
    ensures sum { WholeSum }
    ensures product { WholeProduct }
{}

/// What a fraction in lowest terms stands for: each `Frac` is one.
pub fn law_number()
    ensures lowest { NumberOfLowest }
    ensures sum { NumberOfSum }
    ensures product { NumberOfProduct }
{}

/// Signs of sums and products.
pub fn law_signs()
    ensures sum { NotPositiveSum }
    ensures product { NotPositiveProduct }
    ensures zero { ZeroIsZero }
{}
