// What is said of the terms of an arena, found by their ids.

ghost use Rattle.std.specs.Prelude.{◌≡◌, ◌<◌, ℕ, [], true, length, slice_set, OnOk, IfOk};
ghost use Rattle.std.specs.List.{list_any};
ghost use Rattle.indexmap.specs.IndexSet.{insert_key};
ghost use Rattle.spv_assignments.specs.assignment_vector.Sayings.{Adds, HasNoMarks, is_marked, IsEmpty, IsOfTerms, IsWithin, order, same_order, says};

use indexmap::IndexSet;
use spv_term::TermId;
use std::alloc::{AllocError, Global};
use std::marker::Model;

/// What is said of terms.
#[derive(Clone, Copy, Debug)]
pub(crate) enum RowConstraint {
    /// That a term is true.
    Affirms(TermId),
    /// That a term is false.
    Denies(TermId),
    /// That a number is below another one.
    Orders(TermId, TermId),
}

/// Terms of an arena of which one thing is said, each marked at its id.
#[derive(Drop)]
pub(crate) struct Ids {
    marks: Vec<bool>,
}

impl Model for Ids {
    ghost use Rattle.std.specs.Prelude.{Bool, List};

    ghost Value = { List Bool };

    ghost view = { λ m. m.marks.items };
}

impl Ids {
    // No terms, of so many.
    fn new(alloc: Global, count: u32) -> Result<Ids, AllocError>
        ensures { IfOk result (HasNoMarks count) }
    {
        let marks = vec![in alloc; false; count as usize]?;
        Ok(Ids { marks })
    }

    // Whether a term is among them.
    fn has(&self, t: TermId) -> bool
        ensures { result ≡ is_marked self.now t }
    {
        match self.marks.get(t.0 as usize) {
            Some(mark) => *mark,
            None => false,
        }
    }

    // One term more.
    fn put(&mut self, t: TermId)
        requires { t.0 < length self.old }
        ensures { self.new ≡ slice_set self.old t.0 true }
    {
        self.marks[t.0 as usize] = true;
    }
}

/// Two terms, the first of which is below the second.
#[derive(Clone, Copy, PartialEq, Eq, Hash, Debug)]
pub(crate) struct Order {
    low: TermId,
    high: TermId,
}

/// Terms of which one is below the other. A look-up goes by a hash.
#[derive(Drop)]
pub(crate) struct Pairs {
    pairs: IndexSet<Order>,
}

impl Model for Pairs {
    ghost use Rattle.std.specs.Prelude.{List};
    ghost use Rattle.spv_assignments.specs.declared.assignment_vector.sayings.Order.{Order};

    ghost Value = { List Order };

    ghost view = { λ m. m.pairs.keys };
}

impl Pairs {
    // No terms.
    fn new(alloc: Global) -> Pairs
        ensures { result ≡ [] }
    {
        Pairs {
            pairs: IndexSet::new(alloc),
        }
    }

    // Whether a term is below another.
    fn has(&self, low: TermId, high: TermId) -> bool
        ensures { result ≡ list_any (same_order (order low high)) self.now }
    {
        if self.pairs.is_empty() {
            return false;
        }
        self.pairs.contains(&Order { low, high })
    }

    // That a term is below another.
    fn put(&mut self, low: TermId, high: TermId) -> Result<(), AllocError>
        ensures { OnOk result (self.new ≡ insert_key same_order self.old (order low high)) }
    {
        self.pairs.insert_full(Order { low, high })?;
        Ok(())
    }
}

/// What is said of all terms.
#[derive(Drop)]
pub(crate) struct Sayings {
    pub(crate) affirmed: Ids,
    pub(crate) denied: Ids,
    pub(crate) orders: Pairs,
}

impl Sayings {
    // Nothing is said, of so many terms.
    pub(crate) fn new(alloc: Global, count: u32) -> Result<Sayings, AllocError>
        ensures empty { IfOk result IsEmpty }
        ensures count { IfOk result (IsOfTerms count) }
    {
        Ok(Sayings {
            affirmed: Ids::new(alloc, count)?,
            denied: Ids::new(alloc, count)?,
            orders: Pairs::new(alloc),
        })
    }

    // Whether this is said.
    pub(crate) fn has(&self, s: RowConstraint) -> bool
        ensures { result ≡ says self.now s }
    {
        match s {
            RowConstraint::Affirms(t) => self.affirmed.has(t),
            RowConstraint::Denies(t) => self.denied.has(t),
            RowConstraint::Orders(low, high) => self.orders.has(low, high),
        }
    }

    // That this is said too.
    pub(crate) fn put(&mut self, s: RowConstraint) -> Result<(), AllocError>
        requires there { IsWithin self.old s }
        ensures adds { OnOk result (Adds s self.old self.new) }
        ensures count { OnOk result ((n : ℕ) → IsOfTerms n self.old → IsOfTerms n self.new) }
    {
        match s {
            RowConstraint::Affirms(t) => self.affirmed.put(t),
            RowConstraint::Denies(t) => self.denied.put(t),
            RowConstraint::Orders(low, high) => self.orders.put(low, high)?,
        }
        Ok(())
    }
}
