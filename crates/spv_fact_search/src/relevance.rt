// The hypotheses of a condition that are near to its first ones: those that share a variable with one that is near. Variables stand for applications.

use spv_logic::list::List;
use spv_search_terms::subterms::{IdSet, subterms};
use spv_term::{Condition, TermId, Terms};
use spv_trimming::testing::is_there;
use std::alloc::{AllocError, Global};

// The terms of a list, each once.
fn set_of(alloc: Global, list: &[TermId]) -> Result<IdSet, AllocError> {
    let mut set = IdSet::new(alloc);
    for t in list {
        set.add(*t)?;
    }
    Ok(set)
}

// Which of these variables stand in a formula.
fn variables_in(
    alloc: Global,
    terms: &Terms,
    variables: &IdSet,
    f: TermId,
) -> Result<Vec<TermId>, AllocError> {
    let mut found = Vec::new(alloc);
    if !is_there(terms, f) {
        return Ok(found);
    }
    let parts = subterms(alloc, terms, &[f])?;
    for t in parts.as_slice() {
        if variables.has(*t) {
            found.push(*t)?;
        }
    }
    Ok(found)
}

// Formulas, the variables of each, and what is near so far.
#[derive(Drop)]
struct Nearness {
    variables: Vec<Vec<TermId>>,
    near: Vec<bool>,
    reached: IdSet,
}

impl Nearness {
    fn new(
        alloc: Global,
        terms: &Terms,
        formulas: &[TermId],
        variables: &IdSet,
    ) -> Result<Nearness, AllocError> {
        let mut nearness = Nearness {
            variables: Vec::new(alloc),
            near: Vec::new(alloc),
            reached: IdSet::new(alloc),
        };
        for f in formulas {
            let found = variables_in(alloc, terms, variables, *f)?;
            nearness.variables.push(found)?;
            nearness.near.push(false)?;
        }
        Ok(nearness)
    }

    // Whether the formula at a place is near.
    fn is_near(&self, place: usize) -> bool {
        self.near.get(place).copied().unwrap_or(false)
    }

    // Whether the formula at a place shares a variable with one that is near, or has none.
    fn is_reached(&self, place: usize) -> bool {
        let Some(own) = self.variables.get(place) else {
            return false;
        };
        own.is_empty() || own.iter().any(|t| self.reached.has(*t))
    }

    // The formula at a place is near, and its variables are reached.
    fn take(&mut self, place: usize) -> Result<(), AllocError> {
        if let Some(near) = self.near.get_mut(place) {
            *near = true;
        }
        if let Some(own) = self.variables.get(place) {
            for t in own.as_slice() {
                self.reached.add(*t)?;
            }
        }
        Ok(())
    }

    // Takes what is reached; whether anything was.
    fn go_on(&mut self) -> Result<bool, AllocError> {
        let mut some = false;
        for place in 0..self.near.len() {
            if !self.is_near(place) && self.is_reached(place) {
                self.take(place)?;
                some = true;
            }
        }
        Ok(some)
    }
}

/// The places of the hypotheses of a condition that are near to so many first ones, in order.
pub(crate) fn near(
    alloc: Global,
    terms: &Terms,
    condition: &Condition,
    first: usize,
    variables: &[TermId],
) -> Result<Vec<usize>, AllocError> {
    let set = set_of(alloc, variables)?;
    let mut nearness = Nearness::new(alloc, terms, condition.given.as_slice(), &set)?;
    for place in 0..first {
        nearness.take(place)?;
    }
    for _ in 0..condition.given.len() {
        if !nearness.go_on()? {
            break;
        }
    }
    let mut places = Vec::new(alloc);
    for place in 0..condition.given.len() {
        if nearness.is_near(place) {
            places.push(place)?;
        }
    }
    Ok(places)
}

/// A condition with its hypotheses at these places alone.
pub(crate) fn with_these(
    alloc: Global,
    condition: &Condition,
    places: &[usize],
) -> Result<Condition, AllocError> {
    let given = condition.given.as_slice();
    let mut list = List::new(alloc);
    for place in places {
        if let Some(f) = given.get(*place) {
            list.push(*f)?;
        }
    }
    Ok(Condition {
        given: list,
        goal: condition.goal,
        origin: condition.origin,
    })
}

/// All places of hypotheses.
pub(crate) fn all_places(alloc: Global, condition: &Condition) -> Result<Vec<usize>, AllocError> {
    let mut places = Vec::new(alloc);
    for place in 0..condition.given.len() {
        places.push(place)?;
    }
    Ok(places)
}
