// Heads that have a meaning of their own, over fractions.

ghost use Rattle.std.specs.Prelude.{◌≡◌};
ghost use Rattle.spv_table.specs.Values as spec;
ghost use Rattle.spv_table.specs.Values.{operated};

use spv_frac::{Frac, Op};
use spv_term::Head;
use std::cmp::Ordering;

/// An operation on two fractions that is too wide.
#[derive(Clone, Copy, Debug, PartialEq, Eq)]
pub struct WideValue {
    /// The operation.
    pub op: Op,
    /// Its left side.
    pub left: Frac,
    /// Its right side.
    pub right: Frac,
}

// The fraction of a truth value.
pub(crate) fn truth_value(truth: bool) -> Frac
    ensures { result ≡ spec.truth_value truth }
{
    if truth {
        Frac::whole(1)
    } else {
        Frac::whole(0)
    }
}

// Whether a fraction is that of TRUE.
pub(crate) fn is_true(x: Frac) -> bool
    ensures { result ≡ spec.is_true x }
{
    x.num == 1 && x.den == 1
}

// Whether two fractions are the same.
fn is_same(x: Frac, y: Frac) -> bool
    ensures { result ≡ spec.is_same x y }
{
    x.num == y.num && x.den == y.den
}

// The sum.
fn sum(x: Frac, y: Frac) -> Result<Frac, WideValue>
    ensures { result ≡ operated Op.Add x y }
{
    match x.add(y) {
        Ok(value) => Ok(value),
        Err(_) => Err(WideValue {
            op: Op::Add,
            left: x,
            right: y,
        }),
    }
}

// The difference.
fn difference(x: Frac, y: Frac) -> Result<Frac, WideValue>
    ensures { result ≡ operated Op.Sub x y }
{
    match x.sub(y) {
        Ok(value) => Ok(value),
        Err(_) => Err(WideValue {
            op: Op::Sub,
            left: x,
            right: y,
        }),
    }
}

// The product.
fn product(x: Frac, y: Frac) -> Result<Frac, WideValue>
    ensures { result ≡ operated Op.Mul x y }
{
    match x.mul(y) {
        Ok(value) => Ok(value),
        Err(_) => Err(WideValue {
            op: Op::Mul,
            left: x,
            right: y,
        }),
    }
}

// Whether the first is less.
fn less(x: Frac, y: Frac) -> Result<Frac, WideValue>
    ensures { result ≡ spec.compared spec.is_less x y }
{
    match x.cmp(y) {
        Ok(order) => Ok(truth_value(matches!(order, Ordering::Less))),
        Err(_) => Err(WideValue {
            op: Op::Cmp,
            left: x,
            right: y,
        }),
    }
}

// Whether the first is at most the second.
fn at_most(x: Frac, y: Frac) -> Result<Frac, WideValue>
    ensures { result ≡ spec.compared spec.is_at_most x y }
{
    match x.cmp(y) {
        Ok(order) => Ok(truth_value(!matches!(order, Ordering::Greater))),
        Err(_) => Err(WideValue {
            op: Op::Cmp,
            left: x,
            right: y,
        }),
    }
}

// What a head with a meaning of its own makes of two fractions.
pub(crate) fn of_pair(head: Head, x: Frac, y: Frac) -> Result<Frac, WideValue>
    ensures { result ≡ spec.of_pair head x y }
{
    match head {
        Head::Add => sum(x, y),
        Head::Sub => difference(x, y),
        Head::Mul => product(x, y),
        Head::Lt => less(x, y),
        Head::Le => at_most(x, y),
        Head::And => Ok(truth_value(is_true(x) && is_true(y))),
        Head::Or => Ok(truth_value(is_true(x) || is_true(y))),
        Head::Implies => Ok(truth_value(!is_true(x) || is_true(y))),
        _ => Ok(truth_value(is_same(x, y))),
    }
}

// Whether a head over two terms, which are constant or not, has a meaning of its own.
pub(crate) fn has_meaning(head: Head, left_is_constant: bool, right_is_constant: bool) -> bool
    ensures { result ≡ spec.has_meaning_over head left_is_constant right_is_constant }
{
    match head {
        Head::Mul => left_is_constant || right_is_constant,
        Head::Add | Head::Sub | Head::Eq | Head::Lt | Head::Le => true,
        Head::And | Head::Or | Head::Implies => true,
        _ => false,
    }
}
