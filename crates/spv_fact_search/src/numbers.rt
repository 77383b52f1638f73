// What terms are taken to be worth: a guess, on which nothing rests.

ghost use Rattle.std.specs.Prelude.{◌<◌, length};
ghost use Rattle.spv_term.specs.Arena.{AllBelow};

use crate::enlarging::used_terms;
use spv_frac::Frac;
use spv_table::Table;
use spv_term::{Condition, Head, TermId, Terms};
use std::alloc::{AllocError, Global};

/// Numbers of terms, each at the place of its id.
#[derive(Drop)]
pub(crate) struct Numbers {
    list: Vec<Option<Frac>>,
}

impl Numbers {
    /// Places for so many terms, without numbers.
    pub(crate) fn none(alloc: Global, count: u32) -> Result<Numbers, AllocError> {
        let mut list = Vec::new(alloc);
        for _ in 0..count {
            list.push(None)?;
        }
        Ok(Numbers { list })
    }

    /// The number of a term, if it has one.
    pub(crate) fn at(&self, t: TermId) -> Option<Frac> {
        match self.list.as_slice().get(t.0 as usize) {
            Some(number) => *number,
            None => None,
        }
    }

    /// Gives a term a number, or none, if there is a place for it.
    pub(crate) fn put(&mut self, t: TermId, number: Option<Frac>) {
        if let Some(place) = self.list.get_mut(t.0 as usize) {
            *place = number;
        }
    }

    /// A whole number above all of these, as far as they are small.
    pub(crate) fn above(&self) -> i64 {
        let mut above = 0;
        for number in self.list.as_slice() {
            above = above_both(above, *number);
        }
        above
    }

    // One place more.
    fn push(&mut self, number: Option<Frac>) -> Result<(), AllocError> {
        self.list.push(number)?;
        Ok(())
    }
}

/// The greatest whole number that is not above a number, if it is small.
pub(crate) fn whole_part(x: Frac) -> Option<Frac> {
    if x.den < 1 {
        return None;
    }
    match i64::try_from(x.num.div_euclid(x.den)) {
        Ok(whole) => Some(Frac::whole(whole)),
        Err(_) => None,
    }
}

// A whole number above a number, where that is small, and not below this one.
fn above_both(least: i64, number: Option<Frac>) -> i64 {
    let Some(x) = number else {
        return least;
    };
    let Ok(whole) = i64::try_from(x.num) else {
        return least;
    };
    match whole.checked_add(1) {
        Some(next) if next > least => next,
        _ => least,
    }
}

// The numbers of a table, each at the place of its term.
fn numbers_of(alloc: Global, terms: &Terms, table: &Table) -> Result<Numbers, AllocError> {
    let mut numbers = Numbers::none(alloc, terms.len())?;
    for pair in table.values.as_slice() {
        numbers.put(pair.0, Some(pair.1));
    }
    Ok(numbers)
}

// Whether a term is one of 0, 1, TRUE and FALSE.
fn is_base(terms: &Terms, t: TermId) -> bool {
    if t.0 >= terms.len() {
        return false;
    }
    match terms.node(t).head {
        Head::Num(number) => number == 0 || number == 1,
        Head::True | Head::False => true,
        _ => false,
    }
}

// The place of a term's copy comes behind the others, unless it is one of 0, 1, TRUE and FALSE, which stand before all others there.
fn push_copy(
    terms: &Terms,
    before: &Numbers,
    copy: &mut Numbers,
    t: TermId,
) -> Result<(), AllocError> {
    if is_base(terms, t) {
        return Ok(());
    }
    copy.push(before.at(t))
}

/// The numbers of a table, each at the place of the copy of its term in the arena of a condition's copy.
pub(crate) fn carried(
    alloc: Global,
    terms: &Terms,
    condition: &Condition,
    table: &Table,
) -> Result<Numbers, AllocError>
    requires given { AllBelow (length terms.now.nodes) condition.now.given }
    requires goal { condition.now.goal.0 < length terms.now.nodes }
{
    let before = numbers_of(alloc, terms, table)?;
    let used = used_terms(alloc, terms, condition)?;
    let mut copy = Numbers::none(alloc, 4)?;
    for t in used.as_slice() {
        push_copy(terms, &before, &mut copy, *t)?;
    }
    Ok(copy)
}
