// Bounds on linear forms.

ghost use Rattle.std.specs.Prelude.{◌≡◌, ◌<◌, ◌≤◌, ◌^◌, List, ◌⊎◌, length, map, Some, IfOk, IfErr, IsTrue, ◌↔◌, false};
ghost use Rattle.std.specs.List.{list_any};
ghost use Rattle.std.specs.Option.{option_map};
ghost use Rattle.spv_frac.specs.rational.Rational.{number};
ghost use Rattle.spv_atoms.specs.Order.{same_id};
ghost use Rattle.spv_tableau_rules.specs.tableaux.Bounds.{Bound, bound_on, other_side};
ghost use Rattle.spv_tableau_rules.specs.tableaux.Operations.{fits};
ghost use Rattle.spv_tableau_rules.specs.tableaux.Rows.{column_of, columns};
ghost use Rattle.spv_tableau_rules.specs.tableaux.Forms.{rows_of, part_ids};
ghost use Rattle.spv_simplex.specs.declared.checked.Checked.TheVariants as checked;
ghost use Rattle.spv_simplex.specs.State.{IsTableau, IsOpened, LeavesValue, compared, IsUncomparable, MayAssert, kept_point, rows_in, with_bound, with_first, value_of};
ghost use Rattle.spv_simplex.specs.State as spec;
ghost use Rattle.spv_simplex.specs.Checks.{IsChecked, HoldsAsserted};
ghost use Rattle.spv_dictionary.specs.pivoting.Trail.{bound_of};
ghost use Rattle.spv_dictionary.specs.pivoting.Combining.{multiple_in};

use crate::cells;
use crate::checked::Checked;
use crate::evidence::{Evidence, Room};
use crate::forms::{Form, Parts, forms_of};
use crate::searching::search;
use spv_atoms::Linear;
use spv_dictionary::Dictionary;
use spv_dictionary::checked_numbers::{Number, Refused};
use spv_dictionary::pivoting::{Trail, all_met};
use spv_frac::{Frac, TooWide};
use spv_tableau_rules::tableaux::Side;
use spv_term::TermId;
use std::alloc::{AllocError, Global};
use std::marker::Model;

/// How many bounds stood.
#[derive(Clone, Copy, Debug)]
pub struct Mark {
    count: usize,
}

impl Model for Mark {
    ghost use Rattle.std.specs.Prelude.{ℕ, refl};

    ghost Value = { ℕ };

    ghost view = { λ m. m.count };

    ghost inverse = { λ n. record { count = n } };

    ghost inverse_ok = { λ m h. refl };
}

/// Bounds on linear forms over the rational numbers. Each form has a row, whose place is its place among the
/// forms.
#[derive(Drop)]
pub struct Tableau {
    forms: Vec<Form>,
    parts: Parts,
    trail: Trail,
    pivots: u64,
    dictionary: Dictionary,
    values: Vec<Number>,
    // So many of the first bounds are known to be met.
    met: usize,
    answer: Option<Checked>,
    combination: Vec<(u32, Side, Frac)>,
    evidence: Evidence,
}

impl Model for Tableau {
    ghost use Rattle.std.specs.Prelude.{map, vec_capacity};
    ghost use Rattle.spv_dictionary.specs.pivoting.Combining.{multiple_in};
    ghost use Rattle.spv_simplex.specs.State.{State, IsKept};

    ghost Value = { State };

    ghost view = { λ t. record {
      forms = t.forms.items;
      trail = t.trail.most;
      pivots = t.pivots;
      bounds = t.trail.bounds;
      form = t.dictionary;
      values = t.values.items;
      answer = t.answer;
      combination = map multiple_in t.combination.items;
      evidence = t.evidence;
    } };

    ghost invariant = { λ t. IsKept (record {
      forms = t.forms.items;
      trail = t.trail.most;
      pivots = t.pivots;
      bounds = t.trail.bounds;
      form = t.dictionary;
      values = t.values.items;
      answer = t.answer;
      combination = map multiple_in t.combination.items;
      evidence = t.evidence;
    }) t.parts t.trail t.met (vec_capacity t.combination) };
}

// The other side of a row.
fn other(side: Side) -> Side
    ensures { result ≡ other_side side }
{
    match side {
        Side::Lower => Side::Upper,
        Side::Upper => Side::Lower,
    }
}

// Whether a bound on a side leaves no value to the one on the other side.
fn clashes(side: Side, value: Number, other: Number) -> Result<bool, Refused>
    ensures value { IfOk result (λ b. b ≡ spec.clashes side value other) }
    ensures refused { IfErr result (λ o. o ≡ compared side value other) }
    ensures unfit { IfErr result (λ o. fits o ≡ false) }
{
    match side {
        Side::Lower => other.is_less(value),
        Side::Upper => value.is_less(other),
    }
}

// Whether a bound on a side leaves a value to the one on the other side, if there is one.
fn leaves_value(side: Side, value: Number, other: Option<Number>) -> Result<bool, TooWide>
    ensures value { IfOk result (λ b. IsTrue b ↔ LeavesValue side value other) }
    ensures wide { IfErr result (λ _. IsUncomparable side value other) }
{
    match other {
        None => Ok(true),
        Some(against) => match clashes(side, value, against) {
            Ok(clash) => Ok(!clash),
            Err(_) => Err(TooWide),
        },
    }
}

impl Tableau {
    /// What is true of every tableau: the kept basis has a solved form, the kept point solves the rows, and each
    /// part outside the basis is 0.
    pub fn law_tableau(&self)
        ensures { IsTableau self.now }
    {
        let _pivots = self.pivots;
    }

    /// Rows of these forms, without bounds; at most `trail` bounds may stand, and a check makes at most `pivots`
    /// steps. All memory is taken here.
    pub fn open(
        alloc: Global,
        rows: &[Linear],
        trail: usize,
        pivots: u64,
    ) -> Result<Tableau, AllocError>
        requires pivots { pivots ≤ 1000000 }
        requires columns { columns (rows_of rows.now) < 2 ^ 32 }
        ensures { IfOk result (λ t. IsOpened rows.now trail pivots t) }
    {
        let forms = forms_of(alloc, rows)?;
        let parts = Parts::of(alloc, rows)?;
        let cells = cells::rows(alloc, rows, &parts)?;
        let width = parts.len();
        let dictionary = Dictionary::start(alloc, width, cells)?;
        let values = vec![in alloc; Number::whole(0); width + rows.len()]?;
        let bounds = Trail::new(alloc, rows.len(), trail)?;
        let combination = Vec::with_capacity(alloc, rows.len())?;
        let room = Room {
            bounds: trail,
            basis: rows.len(),
            held: width,
            steps: pivots as usize,
        };
        let evidence = Evidence::new(alloc, room)?;
        Ok(Tableau {
            forms,
            parts,
            trail: bounds,
            pivots,
            dictionary,
            values,
            met: 0,
            answer: None,
            combination,
            evidence,
        })
    }

    /// Whether a bound may be asserted: there is such a row, room for one bound more, no bound yet on this side of the
    /// row, and the one on the other side, if there is one, leaves a value. `TooWide` comes only where these two cannot
    /// be compared.
    pub fn accepts(&self, row: u32, side: Side, bound: Frac) -> Result<bool, TooWide>
        ensures value { IfOk result (λ b. IsTrue b ↔ MayAssert self.now (bound_of row side (number bound))) }
        ensures wide { IfErr result (λ _. IsUncomparable side (number bound) (bound_on self.now.bounds row (other_side side))) }
    {
        self.trail.law_trail();
        let place = row as usize;
        if !self.trail.is_free(place, side) {
            return Ok(false);
        }
        leaves_value(
            side,
            Number::of(bound),
            self.trail.bound(place, other(side)),
        )
    }

    /// The bound that stands on a side of a row.
    pub fn bound(&self, row: u32, side: Side) -> Option<Frac>
        requires { row < length self.now.forms }
        ensures { option_map number result ≡ bound_on self.now.bounds row side }
    {
        match self.trail.bound(row as usize, side) {
            Some(value) => Some(value.frac()),
            None => None,
        }
    }

    /// The value of a row at the kept point.
    pub fn row_value(&self, row: u32) -> Frac
        requires { row < length self.now.forms }
        ensures { number result ≡ kept_point self.now (column_of (rows_in self.now) row) }
    {
        let place = self.parts.len() + row as usize;
        let values = self.values.as_slice();
        values[place].frac()
    }

    /// Asserts a bound on a side of a row that has none there.
    pub fn assert_bound(&mut self, row: u32, side: Side, bound: Frac)
        requires { MayAssert self.old (bound_of row side (number bound)) }
        ensures { self.new ≡ with_bound self.old (bound_of row side (number bound)) }
    {
        let value = Number::of(bound);
        self.trail.push(row as usize, side, value);
        self.trail.law_trail();
    }

    /// Whether a mark was not undone past.
    pub fn has(&self, mark: Mark) -> bool
        ensures { IsTrue result ↔ (mark ≤ length self.now.bounds) }
    {
        mark.count <= self.trail.len()
    }

    /// Lets go all bounds that came after a mark. The basis stays.
    pub fn undo(&mut self, mark: Mark)
        requires { mark ≤ length self.old.bounds }
        ensures { self.new ≡ with_first self.old mark }
    {
        self.trail.keep(mark.count);
        self.trail.law_trail();
        self.met = self.met.min(mark.count);
    }

    /// How many bounds stand.
    pub fn mark(&self) -> Mark
        ensures { result ≡ length self.now.bounds }
    {
        Mark {
            count: self.trail.len(),
        }
    }

    /// Searches a point that meets all bounds. `Feasible`: the kept point does. `Infeasible`: the kept combination of
    /// bounds is a contradiction. `Wide`: the operation that the evidence names does not fit, after its steps.
    /// `Pivots`: all steps were made that are allowed, and one more would follow. No memory is taken.
    pub fn check(&mut self) -> Checked
        ensures checked { IsChecked self.old self.new result }
        ensures held { (asserted : List Bound) → HoldsAsserted asserted self.old → HoldsAsserted asserted self.new }
    {
        self.dictionary.law_dictionary();
        if all_met(
            self.dictionary.slots(),
            self.values.as_slice(),
            &self.trail,
            self.met,
        ) {
            self.met = self.trail.len();
            self.answer = Some(Checked::Feasible);
            return Checked::Feasible;
        }
        self.met = 0;
        let answer = search(
            &mut self.dictionary,
            self.values.as_mut_slice(),
            &self.trail,
            &mut self.combination,
            &mut self.evidence,
        );
        self.answer = Some(answer);
        answer
    }

    /// What the last check came to; `None` before the first one.
    pub fn answer(&self) -> Option<Checked>
        ensures { result ≡ self.now.answer }
    {
        self.answer
    }

    /// The contradiction of the last check: multiples of bounds in which all parts cancel, and the bounds sum to
    /// less than 0. Each has its row, its side and its factor, which is not negative.
    pub fn combination(&self) -> &[(u32, Side, Frac)]
        requires checked { self.now.answer ≡ Some checked.Infeasible }
        ensures { map multiple_in result.now ≡ self.now.combination }
    {
        self.combination.as_slice()
    }

    /// Why the last check stopped at a limit.
    pub fn evidence(&self) -> &Evidence
        requires checked { (self.now.answer ≡ Some checked.Wide) ⊎ (self.now.answer ≡ Some checked.Pivots) }
        ensures { result.now ≡ self.now.evidence }
    {
        &self.evidence
    }

    /// The terms that are columns, in their order.
    pub fn parts(&self) -> &[TermId]
        ensures { result.now ≡ part_ids self.now.forms }
    {
        self.parts.ids()
    }

    /// The value of a term at the kept point.
    pub fn point(&self, t: TermId) -> Frac
        requires checked { self.now.answer ≡ Some checked.Feasible }
        requires column { IsTrue (list_any (same_id t) (part_ids self.now.forms)) }
        ensures { number result ≡ value_of self.now t }
    {
        let place = self.parts.place(t).unwrap();
        let values = self.values.as_slice();
        values[place].frac()
    }
}
