// What fractions obey, for proofs alone: each law holds of all fractions in lowest terms.
ghost use Rattle.std.specs.Prelude.{◌≡◌, ◌≢◌, ◌↔◌, ◌*◌, pos, ◌+ℤ◌, ◌*ℤ◌};
ghost use Rattle.std.specs.Ordering.{MatchOrdering};
ghost use Rattle.std.specs.declared.cmp.Ordering.TheVariants.{Less};
ghost use Rattle.spv_whole.specs.Fraction.{Fraction, IsLowest, whole, negated, sum, product, reciprocal, IsLess, order};
ghost use Rattle.spv_frac.specs.Range.{IsFrac};

use crate::Frac;

/// Each `Frac` is in lowest terms, and its numbers are in range.
pub fn law_frac(frac: &Frac)
    ensures { IsFrac frac.now }
{
    let _ = &frac.num;
}

/// Fractions of one value are one.
pub fn law_value()
    ensures { (a b : Fraction) → IsLowest a → IsLowest b
        → a.num *ℤ pos b.den ≡ b.num *ℤ pos a.den → a ≡ b }
{}

/// Sums are those of the rationals.
pub fn law_add()
    ensures lowest { (a b : Fraction) → IsLowest a → IsLowest b → IsLowest (sum a b) }
    ensures value { (a b : Fraction) → (sum a b).num *ℤ pos (a.den * b.den)
        ≡ (a.num *ℤ pos b.den +ℤ b.num *ℤ pos a.den) *ℤ pos (sum a b).den }
    ensures commutative { (a b : Fraction) → sum a b ≡ sum b a }
    ensures associative { (a b c : Fraction) → IsLowest a → IsLowest b → IsLowest c
        → sum (sum a b) c ≡ sum a (sum b c) }
    ensures zero { (a : Fraction) → IsLowest a → sum a (whole (pos 0)) ≡ a }
    ensures negated_lowest { (a : Fraction) → IsLowest a → IsLowest (negated a) }
    ensures negated { (a : Fraction) → IsLowest a → sum a (negated a) ≡ whole (pos 0) }
    ensures both_negated { (a b : Fraction) → sum (negated a) (negated b) ≡ negated (sum a b) }
{}

/// Products are those of the rationals.
pub fn law_mul()
    ensures lowest { (a b : Fraction) → IsLowest a → IsLowest b → IsLowest (product a b) }
    ensures value { (a b : Fraction) → (product a b).num *ℤ pos (a.den * b.den)
        ≡ a.num *ℤ b.num *ℤ pos (product a b).den }
    ensures commutative { (a b : Fraction) → product a b ≡ product b a }
    ensures associative { (a b c : Fraction) → IsLowest a → IsLowest b → IsLowest c
        → product (product a b) c ≡ product a (product b c) }
    ensures one { (a : Fraction) → IsLowest a → product a (whole (pos 1)) ≡ a }
    ensures zero { (a : Fraction) → IsLowest a → product a (whole (pos 0)) ≡ whole (pos 0) }
    ensures negated { (a b : Fraction) → product (negated a) b ≡ negated (product a b) }
    ensures distributive { (a b c : Fraction) → IsLowest a → IsLowest b → IsLowest c
        → product a (sum b c) ≡ sum (product a b) (product a c) }
    ensures reciprocal_lowest { (a : Fraction) → IsLowest a → a.num ≢ pos 0
        → IsLowest (reciprocal a) }
    ensures reciprocal { (a : Fraction) → IsLowest a → a.num ≢ pos 0
        → product a (reciprocal a) ≡ whole (pos 1) }
{}

/// The order is total, and it is that of the cross products.
pub fn law_cmp()
    ensures total { (a b : Fraction) → IsLowest a → IsLowest b
        → MatchOrdering (order a b) (IsLess a b) (a ≡ b) (IsLess b a) }
    ensures less { (a b : Fraction) → (order a b ≡ Less) ↔ IsLess a b }
    ensures irreflexive { (a : Fraction) → ¬ IsLess a a }
    ensures transitive { (a b c : Fraction) → IsLowest a → IsLowest b → IsLowest c
        → IsLess a b → IsLess b c → IsLess a c }
    ensures sum { (a b c : Fraction) → IsLowest a → IsLowest b → IsLowest c
        → IsLess a b → IsLess (sum a c) (sum b c) }

    // A positive factor keeps the order.
    ensures product { (a b c : Fraction) → IsLowest a → IsLowest b → IsLowest c
        → IsLess (whole (pos 0)) c → IsLess a b → IsLess (product a c) (product b c) }
{}
