// The bounds that stand.

ghost use Rattle.std.specs.Prelude.{◌≡◌, ◌<◌, ◌≤◌, ◌-◌, [], length, None, replicate, slice_get, Some, IfOk, IsTrue, ◌↔◌};
ghost use Rattle.spv_tableau_rules.specs.declared.tableaux.side.Side.TheVariants.{Lower, Upper};
ghost use Rattle.spv_tableau_rules.specs.tableaux.Bounds.{bound_on};
ghost use Rattle.spv_dictionary.specs.pivoting.Trail.{bound_of, more, first_of, written, KeepsApart, IsFree};

use crate::checked_numbers::Number;
use spv_tableau_rules::tableaux::Side;
use std::alloc::{AllocError, Global};
use std::marker::Model;

/// A bound that stands.
#[derive(Clone, Copy, Debug)]
pub struct Standing {
    row: usize,
    side: Side,
    value: Number,
}

impl Model for Standing {
    ghost use Rattle.spv_tableau_rules.specs.tableaux.Bounds.{Bound};

    ghost Value = { Bound };

    ghost view = { λ b. record { row = b.row; side = b.side; value = b.value } };

    ghost inverse = { λ b. record { row = b.row; side = b.side; value = b.value } };

    ghost use Rattle.std.specs.Prelude.{refl};

    ghost inverse_ok = { λ b h. refl };
}

impl Standing {
    /// Its row.
    pub fn row(self) -> usize
        ensures { result ≡ self.row }
    {
        self.row
    }

    /// Its side.
    pub fn side(self) -> Side
        ensures { result ≡ self.side }
    {
        self.side
    }

    /// Its value.
    pub fn value(self) -> Number
        ensures { result ≡ self.value }
    {
        self.value
    }
}

/// The bounds that stand, in the order in which they came, and for each row its two bounds at hand.
#[derive(Drop)]
pub struct Trail {
    most: usize,
    bounds: Vec<Standing>,
    lower: Vec<Option<Number>>,
    upper: Vec<Option<Number>>,
}

impl Model for Trail {
    ghost use Rattle.std.specs.Prelude.{length, ◌≤◌, vec_capacity};
    ghost use Rattle.spv_dictionary.specs.pivoting.Trail.{Trail, IsTrail};

    ghost Value = { Trail };

    ghost view = { λ t. record { rows = length t.lower.items; most = t.most; bounds = t.bounds.items } };

    ghost invariant = { λ t. IsTrail (record { rows = length t.lower.items; most = t.most; bounds = t.bounds.items }) t.lower.items t.upper.items
        × (t.most ≤ vec_capacity t.bounds) };
}

impl Trail {
    /// No bounds, and room for some.
    pub fn new(alloc: Global, rows: usize, most: usize) -> Result<Trail, AllocError>
        ensures { IfOk result (λ t. t ≡ record { rows = rows; most = most; bounds = [] }) }
    {
        let bounds = Vec::with_capacity(alloc, most)?;
        let lower = vec![in alloc; None; rows]?;
        let upper = vec![in alloc; None; rows]?;
        Ok(Trail {
            most,
            bounds,
            lower,
            upper,
        })
    }

    /// What is true of every trail.
    pub fn law_trail(&self)
        ensures { KeepsApart self.now }
    {
        let _bounds = &self.bounds;
    }

    /// How many bounds stand.
    pub fn len(&self) -> usize
        ensures { result ≡ length self.now.bounds }
    {
        self.bounds.as_slice().len()
    }

    /// The bound at a place.
    pub fn get(&self, place: usize) -> Standing
        requires { place < length self.now.bounds }
        ensures there { slice_get self.now.bounds place ≡ Some result }
        ensures row { result.row < self.now.rows }
    {
        let bounds = self.bounds.as_slice();
        bounds[place]
    }

    /// The bounds that stand, in the order in which they came.
    pub fn bounds(&self) -> &[Standing]
        ensures { result.now ≡ self.now.bounds }
    {
        self.bounds.as_slice()
    }

    /// The bound on a side of a row.
    pub fn bound(&self, row: usize, side: Side) -> Option<Number>
        requires { row < self.now.rows }
        ensures { result ≡ bound_on self.now.bounds row side }
    {
        match side {
            Side::Lower => self.lower[row],
            Side::Upper => self.upper[row],
        }
    }

    /// Whether a bound on a side of a row may be pushed: the row is there, there is room, and no bound stands there.
    pub fn is_free(&self, row: usize, side: Side) -> bool
        ensures { IsTrue result ↔ IsFree self.now row side }
    {
        row < self.lower.len()
            && self.bounds.as_slice().len() < self.most
            && self.bound(row, side).is_none()
    }

    /// One bound more.
    pub fn push(&mut self, row: usize, side: Side, value: Number)
        requires row { row < self.old.rows }
        requires room { length self.old.bounds < self.old.most }
        requires free { bound_on self.old.bounds row side ≡ None }
        ensures { self.new ≡ more self.old (bound_of row side value) }
    {
        self.bounds.push(Standing { row, side, value }).unwrap();
        write(&mut self.lower, &mut self.upper, row, side, Some(value));
    }

    // The last bound is let go.
    fn pop(&mut self)
        requires { 0 < length self.old.bounds }
        ensures { self.new ≡ first_of self.old (length self.old.bounds - 1) }
    {
        let last = self.bounds.pop().unwrap();
        write(
            &mut self.lower,
            &mut self.upper,
            last.row(),
            last.side(),
            None,
        );
    }

    /// So many bounds are left, the first ones.
    pub fn keep(&mut self, count: usize)
        requires { count ≤ length self.old.bounds }
        ensures { self.new ≡ first_of self.old count }
    {
        while self.len() > count {
            self.pop();
        }
    }
}

// What is at hand for a side of a row.
fn write(
    lower: &mut Vec<Option<Number>>,
    upper: &mut Vec<Option<Number>>,
    row: usize,
    side: Side,
    value: Option<Number>,
)
    requires lower { row < length lower.old.items }
    requires upper { row < length upper.old.items }
    ensures lower { lower.new.items ≡ written Lower side lower.old.items row value }
    ensures upper { upper.new.items ≡ written Upper side upper.old.items row value }
{
    match side {
        Side::Lower => lower[row] = value,
        Side::Upper => upper[row] = value,
    }
}
