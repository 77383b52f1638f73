//! What stands on a row.

ghost use Rattle.std.specs.Prelude.{◌≡◌, ◌<◌, ◌≤◌, List, [], length, Some, false, IfOk, IsTrue};
ghost use Rattle.spv_simplex.specs.State.{with_first};
ghost use Rattle.spv_tableau_rules.specs.tableaux.Numbers.{is_less};
ghost use Rattle.spv_tableau_rules.specs.tableaux.Bounds.{Bound, bound_on, breaks};
ghost use Rattle.spv_simplex.specs.Checks.{HoldsAsserted};
ghost use Rattle.spv_arithmetic_side.specs.slack_rows.Rows.{HaveRoom};
ghost use Rattle.spv_frac.specs.rational.Rational.{number};
ghost use Rattle.spv_arithmetic_side.specs.constraint_rows.Standing.{IsMet, IsStanding, KeepsWithin, Stands, StandsOn};

use crate::bounds::{RowSources, bounds_of, law_sides};
use crate::constraint_rows::standing::Standing;
use spv_atoms::Linear;
use spv_dictionary::checked_numbers::Number;
use spv_frac::{Frac, law_frac};
use spv_simplex::{Mark, Side, Tableau, can_open, law_asserted};
use spv_tableau_rules::constraints::RowConstraint;
use std::alloc::{AllocError, Global};

// Whether two fractions are one number.
fn is_same(left: Frac, right: Frac) -> bool
    ensures same { IsTrue result → number left ≡ number right }
    ensures all { number left ≡ number right → IsTrue result }
{
    law_frac(&left);
    law_frac(&right);
    left.num == right.num && left.den == right.den
}

impl Standing {
    /// The rows of these forms, without bounds. A check makes at most so many pivots. Rows with more than 4294967295 columns are
    /// want of memory.
    pub fn open(alloc: Global, forms: Vec<Linear>, pivots: u64) -> Result<Standing, AllocError>
        requires pivots { pivots ≤ 1000000 }
        requires room { HaveRoom forms.items }
        ensures standing { IfOk result (λ b. IsStanding b) }
        ensures forms { IfOk result (λ b. b.tableau.forms ≡ forms.items) }
        ensures bounds { IfOk result (λ b. b.tableau.bounds ≡ []) }
        ensures pivots { IfOk result (λ b. b.tableau.pivots ≡ pivots) }
        ensures asserted { IfOk result (λ b. (known : List Bound) → HoldsAsserted known b.tableau) }
    {
        law_asserted();
        let count = forms.as_slice().len();
        if !can_open(alloc, forms.as_slice())? {
            return Err(AllocError);
        }
        let Some(most) = count.checked_add(count) else {
            return Err(AllocError);
        };
        let tableau = Tableau::open(alloc, forms.as_slice(), most, pivots)?;
        let sources = vec![in alloc; RowSources::none(); count]?;
        Ok(Standing {
            tableau,
            forms,
            sources,
        })
    }

    /// Takes back the bounds that came after so many. It takes no memory.
    pub fn keep(&mut self, mark: Mark)
        requires standing { IsStanding self.old }
        requires mark { mark ≤ length self.old.tableau.bounds }
        ensures standing { IsStanding self.new }
        ensures tableau { self.new.tableau ≡ with_first self.old.tableau mark }
        ensures sources { self.new.sources ≡ self.old.sources }
    {
        self.tableau.undo(mark);
    }

    // Whether this bound stands on a side of a row.
    fn has(&self, row: u32, side: Side, bound: Frac) -> bool
        requires { row < length self.now.tableau.forms }
        ensures there { IsTrue result → bound_on self.now.tableau.bounds row side ≡ Some (number bound) }
        ensures all { bound_on self.now.tableau.bounds row side ≡ Some (number bound) → IsTrue result }
    {
        match self.tableau.bound(row, side) {
            Some(other) => is_same(other, bound),
            None => false,
        }
    }

    // The same for a bound that may be none.
    fn has_if(&self, row: u32, side: Side, bound: Option<Frac>) -> bool
        requires { row < length self.now.tableau.forms }
        ensures there { IsTrue result → StandsOn self.now row side bound }
        ensures all { StandsOn self.now row side bound → IsTrue result }
    {
        match bound {
            Some(value) => self.has(row, side, value),
            None => true,
        }
    }

    /// Whether the bounds that this is of the sides of a row stand there.
    pub fn stands(&self, row: u32, saying: RowConstraint) -> bool
        requires standing { IsStanding self.now }
        requires row { row < length self.now.tableau.forms }
        ensures there { IsTrue result → Stands self.now row saying }
        ensures all { Stands self.now row saying → IsTrue result }
    {
        law_sides();
        let bounds = bounds_of(self.constant(row), saying);
        self.has_if(row, Side::Lower, bounds.lower) && self.has_if(row, Side::Upper, bounds.upper)
    }

    /// Whether the kept point meets the bounds that this is of the sides of a row. It is false too where a comparison does not fit.
    pub fn is_met(&self, row: u32, saying: RowConstraint) -> bool
        requires standing { IsStanding self.now }
        requires row { row < length self.now.tableau.forms }
        ensures { IsTrue result → IsMet self.now row saying }
    {
        law_sides();
        let bounds = bounds_of(self.constant(row), saying);
        let value = Number::of(self.tableau.row_value(row));
        is_within(Side::Lower, bounds.lower, value) && is_within(Side::Upper, bounds.upper, value)
    }
}

// Whether one number is not less than another one; false where they cannot be compared.
fn is_not_less(left: Number, right: Number) -> bool
    ensures { IsTrue result → is_less left right ≡ false }
{
    match left.is_less(right) {
        Ok(less) => !less,
        Err(_) => false,
    }
}

// Whether a value is on the right side of a bound.
fn keeps(side: Side, bound: Number, value: Number) -> bool
    ensures { IsTrue result → breaks side bound value ≡ false }
{
    match side {
        Side::Lower => is_not_less(value, bound),
        Side::Upper => is_not_less(bound, value),
    }
}

// The same for a bound that may be none.
fn is_within(side: Side, bound: Option<Frac>, value: Number) -> bool
    ensures { IsTrue result → KeepsWithin side bound value }
{
    match bound {
        Some(bound) => keeps(side, Number::of(bound), value),
        None => true,
    }
}
