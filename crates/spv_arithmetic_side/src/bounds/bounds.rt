// The bounds that a literal is.

ghost use Rattle.std.specs.Prelude.{◌≡◌, ℕ, IsTrue, ◌+ℤ◌, neg_ℤ, pos};
ghost use Rattle.spv_whole.specs.Fraction as fraction;
ghost use Rattle.spv_frac.specs.Range.{fits};
ghost use Rattle.spv_tableau_rules.specs.constraints.Sayings as sayings;
ghost use Rattle.spv_arithmetic_side.specs.bounds.Bounds as spec;

use spv_frac::Frac;
use spv_tableau_rules::constraints::RowConstraint;
use spv_term::Head;

/// The bounds that a literal is on the row of its relation: at most one on each side.
#[derive(Clone, Copy, Debug, PartialEq, Eq)]
pub struct Bounds {
    /// The row is at least this.
    pub lower: Option<Frac>,
    /// The row is at most this.
    pub upper: Option<Frac>,
}

/// What a relation of this head says of its sides where it is true, or false; `None` for another head.
pub fn saying(head: Head, is_true: bool) -> Option<RowConstraint>
    ensures { result ≡ sayings.saying head is_true }
{
    match head {
        Head::Eq => {
            if is_true {
                Some(RowConstraint::Equal)
            } else {
                Some(RowConstraint::Differs)
            }
        }
        Head::Lt => {
            if is_true {
                Some(RowConstraint::Below)
            } else {
                Some(RowConstraint::AtLeast)
            }
        }
        Head::Le => {
            if is_true {
                Some(RowConstraint::AtMost)
            } else {
                Some(RowConstraint::Above)
            }
        }
        _ => None,
    }
}

// A number with the other sign.
fn opposite(n: i128) -> i128
    requires { IsTrue (fits n) }
    ensures value { result ≡ neg_ℤ n }
    ensures fits { IsTrue (fits result) }
{
    -n
}

// The number after this one, where that fits.
fn next(n: i128) -> i128
    requires { IsTrue (fits (n +ℤ pos 1)) }
    ensures value { result ≡ n +ℤ pos 1 }
    ensures fits { IsTrue (fits result) }
{
    n + 1
}

// Whether the number after this one fits.
fn has_next(n: i128) -> bool
    requires { IsTrue (fits n) }
    ensures { result ≡ fits (n +ℤ pos 1) }
{
    n < i128::MAX
}

/// Whether a row whose form has this constant has room for each bound of its relation: whether the number after the constant fits,
/// and the one after its opposite.
pub fn has_room(n: i128) -> bool
    requires { IsTrue (fits n) }
    ensures { result ≡ spec.has_room n }
{
    has_next(n) && has_next(opposite(n))
}

// A whole number.
fn whole(n: i128) -> Frac
    requires { IsTrue (fits n) }
    ensures { result ≡ fraction.whole n }
{
    Frac { num: n, den: 1 }
}

/// The bounds on the row of left - right, whose form has this constant, that a literal is which says this of its sides.
pub fn bounds_of(constant: i128, saying: RowConstraint) -> Bounds
    requires { IsTrue (spec.has_room constant) }
    ensures { (row : ℕ) → spec.bounds_in row result ≡ sayings.bounds_of row constant saying }
{
    match saying {
        RowConstraint::Equal => {
            let bound = whole(opposite(constant));
            Bounds {
                lower: Some(bound),
                upper: Some(bound),
            }
        }
        RowConstraint::Below => Bounds {
            lower: None,
            upper: Some(whole(opposite(next(constant)))),
        },
        RowConstraint::AtMost => Bounds {
            lower: None,
            upper: Some(whole(opposite(constant))),
        },
        RowConstraint::Above => Bounds {
            lower: Some(whole(next(opposite(constant)))),
            upper: None,
        },
        RowConstraint::AtLeast => Bounds {
            lower: Some(whole(opposite(constant))),
            upper: None,
        },
        RowConstraint::Differs => Bounds {
            lower: None,
            upper: None,
        },
    }
}
