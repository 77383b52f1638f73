//! Bounds that stand on rows.

ghost use Rattle.std.specs.Prelude.{◌≡◌, ◌⊎◌, ℕ, ◌<◌, ◌≤◌, ◌++◌, [], ◌∷◌, List, Option, Some, None, take, length, true, IsTrue, slice_get, if◌then◌else◌};
ghost use Rattle.spv_frac.specs.rational.Rational.{number};
ghost use Rattle.spv_term.specs.Arena.{Arena};
ghost use Rattle.spv_atoms.specs.Linear.{IdForm};
ghost use Rattle.spv_proof_rules.specs.Sums.{Reading};
ghost use Rattle.spv_tableau_rules.specs.tableaux.Bounds.{Bound};
ghost use Rattle.spv_simplex.specs.declared.checked.Checked.TheVariants as checked;
ghost use Rattle.spv_simplex.specs.State.{MayAssert};
ghost use Rattle.spv_simplex.specs.Checks.{HoldsAsserted, IsAmong, IsChecked};
ghost use Rattle.spv_dictionary.specs.pivoting.Trail.{bound_of};
ghost use Rattle.spv_tableau_rules.specs.constraints.Sayings as sayings;
ghost use Rattle.spv_tableau_rules.specs.constraints.Sources.{with_source};
ghost use Rattle.spv_arithmetic_side.specs.bounds.Bounds.{bound_at, has_room};
ghost use Rattle.spv_arithmetic_side.specs.bounds.Sources.{sources_in};
ghost use Rattle.spv_arithmetic_side.specs.constraint_rows.Forcing.{HasEvidence};
ghost use Rattle.spv_arithmetic_side.specs.constraint_rows.Said.{IsBare, IsFreeFor, IsFreeIf};
ghost use Rattle.spv_arithmetic_side.specs.constraint_rows.Standing.{Adds, AddsSome, AreBoundsOf, ComesFrom, HasSaid, IsAmongIf, IsBack, IsStanding, SaidBy, Sourced};

use crate::bounds::{RowSources, bounds_of, law_sides, note};
use spv_atoms::Linear;
use spv_frac::Frac;
use spv_simplex::{Checked, Side, Tableau, law_asserted};
use spv_tableau_rules::constraints::{RowConstraint, Source};

/// Bounds that stand on the rows of relations, and where each comes from.
#[derive(Drop)]
pub struct Standing {
    /// The tableau.
    pub tableau: Tableau,
    /// The form of each row.
    pub forms: Vec<Linear>,
    /// Where the bounds of each row come from.
    pub sources: Vec<RowSources>,
}

// Whether an equality is said.
pub(crate) fn says_equal(saying: RowConstraint) -> bool
    ensures { result ≡ sayings.says_equal saying }
{
    match saying {
        RowConstraint::Equal => true,
        _ => false,
    }
}

impl Standing {
    // Whether a bound may be asserted.
    fn may_take(&self, row: u32, side: Side, bound: Frac) -> bool
        requires standing { IsStanding self.now }
        ensures may { IsTrue result → MayAssert self.now.tableau (bound_of row side (number bound)) }
        ensures free { IsFreeFor self.now row side (number bound) → IsTrue result }
    {
        self.tableau.law_tableau();
        match self.tableau.accepts(row, side, bound) {
            Ok(free) => free,
            Err(_) => false,
        }
    }

    // Asserts a bound, if it may be asserted; whether it was.
    fn assert_one(&mut self, row: u32, side: Side, bound: Frac, source: Source) -> bool
        requires { IsStanding self.old }
        ensures standing { IsStanding self.new }
        ensures adds { Adds self.old self.new (if result then bound_at row side (Some bound) else []) }
        ensures free { IsFreeFor self.old row side (number bound) → IsTrue result }
        ensures sourced { (a : Arena) (read : ℕ → Option Reading) → Sourced a read self.old self.old.tableau.bounds
            → ComesFrom a read self.old row side (Some bound) source → Sourced a read self.new self.new.tableau.bounds }
        ensures asserted { (known : List Bound) → IsAmong known (bound_of row side (number bound)) → HoldsAsserted known self.old.tableau → HoldsAsserted known self.new.tableau }
    {
        law_asserted();
        if !self.may_take(row, side, bound) {
            return false;
        }
        self.tableau.assert_bound(row, side, bound);
        note(&mut self.sources, row, side, source);
        true
    }

    // Asserts a bound, if there is one; false where it may not be asserted.
    fn assert_if(&mut self, row: u32, side: Side, bound: Option<Frac>, source: Source) -> bool
        requires { IsStanding self.old }
        ensures standing { IsStanding self.new }
        ensures adds { Adds self.old self.new (if result then bound_at row side bound else []) }
        ensures free { IsFreeIf self.old row side bound → IsTrue result }
        ensures sourced { (a : Arena) (read : ℕ → Option Reading) → Sourced a read self.old self.old.tableau.bounds
            → ComesFrom a read self.old row side bound source → Sourced a read self.new self.new.tableau.bounds }
        ensures asserted { (known : List Bound) → IsAmongIf known row side bound → HoldsAsserted known self.old.tableau → HoldsAsserted known self.new.tableau }
    {
        match bound {
            Some(value) => self.assert_one(row, side, value, source),
            None => true,
        }
    }

    // Asserts the bounds that a fact is on a row of whose sides it says this, as far as they may be asserted; whether all were. All
    // are where no bound stands on the row.
    pub(crate) fn assert_saying(&mut self, row: u32, saying: RowConstraint, fact: u32) -> bool
        requires standing { IsStanding self.old }
        requires row { row < length self.old.tableau.forms }
        ensures standing { IsStanding self.new }
        ensures adds { AddsSome self.old self.new }
        ensures all { IsTrue result → (bounds : List Bound) → AreBoundsOf self.old row saying bounds → Adds self.old self.new bounds }
        ensures bare { IsBare self.old row → IsTrue result }
        ensures sourced { (a : Arena) (read : ℕ → Option Reading) → Sourced a read self.old self.old.tableau.bounds
            → SaidBy a read self.old row saying fact → Sourced a read self.new self.new.tableau.bounds }
        ensures asserted { (known : List Bound) → HasSaid known self.old row saying → HoldsAsserted known self.old.tableau → HoldsAsserted known self.new.tableau }
    {
        law_sides();
        let constant = self.constant(row);
        let bounds = bounds_of(constant, saying);
        let source = Source {
            fact,
            is_equal: says_equal(saying),
        };
        let lower = self.assert_if(row, Side::Lower, bounds.lower, source);
        let upper = self.assert_if(row, Side::Upper, bounds.upper, source);
        both(lower, upper)
    }

    /// Checks the bounds that stand.
    pub fn check(&mut self) -> Checked
        requires { IsStanding self.old }
        ensures standing { IsStanding self.new }
        ensures back { IsBack self.old self.new }
        ensures checked { IsChecked self.old.tableau self.new.tableau result }
        ensures asserted { (known : List Bound) → HoldsAsserted known self.old.tableau → HoldsAsserted known self.new.tableau }
        ensures evidence { (known : List Bound) → HoldsAsserted known self.old.tableau → (result ≡ checked.Wide) ⊎ (result ≡ checked.Pivots) → HasEvidence known self.new.tableau }
    {
        self.tableau.law_tableau();
        self.tableau.check()
    }

    // The constant of a row's form.
    pub(crate) fn constant(&self, row: u32) -> i128
        requires standing { IsStanding self.now }
        requires row { row < length self.now.tableau.forms }
        ensures form { (f : IdForm) → slice_get self.now.tableau.forms row ≡ Some f → result ≡ f.constant }
        ensures room { IsTrue (has_room result) }
    {
        self.forms[row as usize].constant()
    }
}

// Whether both are true.
fn both(left: bool, right: bool) -> bool
    ensures left { IsTrue result → IsTrue left }
    ensures right { IsTrue result → IsTrue right }
    ensures all { IsTrue left → IsTrue right → IsTrue result }
{
    left && right
}
