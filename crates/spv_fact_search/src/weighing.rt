// What heads make of numbers, and which number a side of a pair has to have.

use spv_frac::{Frac, TooWide};
use spv_term::Head;
use std::cmp::Ordering;

/// The number of a truth.
pub(crate) fn truth(is: bool) -> Frac {
    if is { Frac::whole(1) } else { Frac::whole(0) }
}

/// Whether two numbers are the same.
pub(crate) fn is_same(x: Frac, y: Frac) -> bool {
    x.num == y.num && x.den == y.den
}

/// Whether a number is that of TRUE.
pub(crate) fn is_true(x: Frac) -> bool {
    is_same(x, Frac::whole(1))
}

// The answer of an operation, where it fits.
fn fitting(answer: Result<Frac, TooWide>) -> Option<Frac> {
    match answer {
        Ok(number) => Some(number),
        Err(_) => None,
    }
}

// The order of two numbers, where it is found.
fn order(x: Frac, y: Frac) -> Option<Ordering> {
    match x.cmp(y) {
        Ok(order) => Some(order),
        Err(_) => None,
    }
}

// Whether the first number is less.
fn less(x: Frac, y: Frac) -> Option<Frac> {
    match order(x, y) {
        Some(order) => Some(truth(matches!(order, Ordering::Less))),
        None => None,
    }
}

// Whether the first number is at most the second.
fn at_most(x: Frac, y: Frac) -> Option<Frac> {
    match order(x, y) {
        Some(order) => Some(truth(!matches!(order, Ordering::Greater))),
        None => None,
    }
}

/// What a head makes of one number, if it has a meaning of its own.
pub(crate) fn of_one(head: Head, x: Frac) -> Option<Frac> {
    match head {
        Head::Not => Some(truth(!is_true(x))),
        _ => None,
    }
}

/// What a head makes of two numbers, if it has a meaning of its own.
pub(crate) fn of_two(head: Head, x: Frac, y: Frac) -> Option<Frac> {
    match head {
        Head::Add => fitting(x.add(y)),
        Head::Sub => fitting(x.sub(y)),
        Head::Mul => fitting(x.mul(y)),
        Head::Eq => Some(truth(is_same(x, y))),
        Head::Lt => less(x, y),
        Head::Le => at_most(x, y),
        Head::And => Some(truth(is_true(x) && is_true(y))),
        Head::Or => Some(truth(is_true(x) || is_true(y))),
        Head::Implies => Some(truth(!is_true(x) || is_true(y))),
        _ => None,
    }
}

// The number, or the next one where it is not to be that one.
fn next_unless(same: bool, number: Frac) -> Option<Frac> {
    if same {
        Some(number)
    } else {
        fitting(number.add(Frac::whole(1)))
    }
}

// The number, or the one before it where it is not to be that one.
fn last_unless(same: bool, number: Frac) -> Option<Frac> {
    if same {
        Some(number)
    } else {
        fitting(number.sub(Frac::whole(1)))
    }
}

/// What the left side of a pair has to be worth, so that the pair is worth a number.
pub(crate) fn left_of(head: Head, number: Frac, right: Frac) -> Option<Frac> {
    match head {
        Head::Add => fitting(number.sub(right)),
        Head::Sub => fitting(number.add(right)),
        Head::Mul if right.num != 0 => fitting(number.div(right)),
        Head::Eq => next_unless(is_true(number), right),
        Head::Le => next_unless(is_true(number), right),
        Head::Lt => last_unless(!is_true(number), right),
        Head::And | Head::Or => Some(number),
        Head::Implies => Some(truth(!is_true(number))),
        _ => None,
    }
}

/// What the right side of a pair has to be worth, so that the pair is worth a number.
pub(crate) fn right_of(head: Head, number: Frac, left: Frac) -> Option<Frac> {
    match head {
        Head::Add => fitting(number.sub(left)),
        Head::Sub => fitting(left.sub(number)),
        Head::Mul if left.num != 0 => fitting(number.div(left)),
        Head::Eq => next_unless(is_true(number), left),
        Head::Le => last_unless(is_true(number), left),
        Head::Lt => next_unless(!is_true(number), left),
        Head::And | Head::Or | Head::Implies => Some(number),
        _ => None,
    }
}
