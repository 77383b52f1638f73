// The evidence for an answer that comes of a limit.

ghost use Rattle.std.specs.Prelude.{◌≡◌, ◌<◌, ◌≤◌, ◌^◌, ◌++◌, ◌∷◌, [], length, map, take, true, false, vec_capacity, IfOk, IsTrue};
ghost use Rattle.spv_frac.specs.rational.Rational.{number};
ghost use Rattle.spv_dictionary.specs.updates.Shifts.{value_in};
ghost use Rattle.spv_simplex.specs.Evidence.{no_evidence, bound_in, held_in, exchange_in, exchange_of, holding, begun, with_step, with_operation};

use spv_dictionary::Dictionary;
use spv_dictionary::checked_numbers::{Number, Refused};
use spv_dictionary::pivoting::{Standing, Trail};
use spv_frac::{Frac, Op};
use spv_tableau_rules::tableaux::Side;
use std::alloc::{AllocError, Global};
use std::marker::Model;

/// How much an evidence has room for.
#[derive(Clone, Copy, Debug)]
pub(crate) struct Room {
    pub(crate) bounds: usize,
    pub(crate) basis: usize,
    pub(crate) held: usize,
    pub(crate) steps: usize,
}

/// Why a check stopped at a limit. It tells where the check set out (its bounds, its basis and what every column
/// outside held), each of its steps by the column that left and the one that entered, and the operation that
/// does not fit. Where the check made all steps that are allowed, the operation is `Cmp` of 0 with 0.
#[derive(Debug, Drop)]
pub struct Evidence {
    room: Room,
    bounds: Vec<(u32, Side, Frac)>,
    start: Vec<u32>,
    held: Vec<(u32, Frac)>,
    steps: Vec<(u32, u32)>,
    op: Op,
    left: Frac,
    right: Frac,
}

impl Model for Evidence {
    ghost use Rattle.std.specs.Prelude.{map, length, ◌≤◌, vec_capacity};
    ghost use Rattle.spv_frac.specs.rational.Rational.{number};
    ghost use Rattle.spv_simplex.specs.Evidence.{EvidenceValue, bound_in, held_in, exchange_in};

    ghost Value = { EvidenceValue };

    ghost view = { λ e. record {
      room = e.room;
      start = record { bounds = map bound_in e.bounds.items; basis = e.start.items; held = map held_in e.held.items };
      steps = map exchange_in e.steps.items;
      operation = record { op = e.op; left = number e.left; right = number e.right };
    } };

    ghost invariant = { λ e. (e.room.bounds ≤ vec_capacity e.bounds) × (e.room.basis ≤ vec_capacity e.start) × (e.room.held ≤ vec_capacity e.held)
        × (e.room.steps ≤ vec_capacity e.steps) × (length e.steps.items ≤ e.room.steps) };
}

// A bound that stands, with its row as the number of a column.
fn standing(bound: Standing) -> (u32, Side, Frac)
    requires { bound.row < 2 ^ 32 }
    ensures { bound_in result ≡ bound }
{
    (bound.row() as u32, bound.side(), bound.value().frac())
}

// The bounds that stand.
fn copy_bounds(into: &mut Vec<(u32, Side, Frac)>, trail: &Trail)
    requires rows { trail.now.rows < 2 ^ 32 }
    requires room { length trail.now.bounds ≤ vec_capacity into.old }
    ensures items { map bound_in into.new.items ≡ trail.now.bounds }
    ensures capacity { vec_capacity into.old ≤ vec_capacity into.new }
{
    into.clear();
    for place in 0..trail.len() {
        into.push(standing(trail.get(place))).unwrap();
    }
}

// The columns in the basis.
fn copy_basis(into: &mut Vec<u32>, dictionary: &Dictionary)
    requires room { length dictionary.now.basic ≤ vec_capacity into.old }
    ensures items { into.new.items ≡ dictionary.now.basic }
    ensures capacity { vec_capacity into.old ≤ vec_capacity into.new }
{
    into.clear();
    into.extend_from_slice(dictionary.basis()).unwrap();
}

// A column and what it holds.
fn column_held(column: u32, value: Number) -> (u32, Frac)
    ensures { held_in result ≡ (column, value) }
{
    (column, value.frac())
}

// The columns outside the basis, and what they hold.
fn copy_held(into: &mut Vec<(u32, Frac)>, dictionary: &Dictionary, values: &[Number])
    requires count { length values.now ≡ length dictionary.now.spots }
    requires room { length dictionary.now.outside ≤ vec_capacity into.old }
    ensures items { map held_in into.new.items ≡ map (holding values.now) dictionary.now.outside }
    ensures capacity { vec_capacity into.old ≤ vec_capacity into.new }
{
    dictionary.law_dictionary();
    into.clear();
    for slot in 0..dictionary.slots() {
        let column = dictionary.outside(slot);
        into.push(column_held(column, values[column as usize]))
            .unwrap();
    }
}

impl Evidence {
    // None yet, and room for it.
    pub(crate) fn new(alloc: Global, room: Room) -> Result<Evidence, AllocError>
        ensures { IfOk result (λ e. e ≡ no_evidence room) }
    {
        Ok(Evidence {
            room,
            bounds: Vec::with_capacity(alloc, room.bounds)?,
            start: Vec::with_capacity(alloc, room.basis)?,
            held: Vec::with_capacity(alloc, room.held)?,
            steps: Vec::with_capacity(alloc, room.steps)?,
            op: Op::Cmp,
            left: Frac::whole(0),
            right: Frac::whole(0),
        })
    }

    // A check begins: the bounds that stand, the basis, and what the other columns hold. No step is made yet.
    pub(crate) fn begin(&mut self, trail: &Trail, dictionary: &Dictionary, values: &[Number])
        requires rows { trail.now.rows < 2 ^ 32 }
        requires count { length values.now ≡ length dictionary.now.spots }
        requires bounds { length trail.now.bounds ≤ self.old.room.bounds }
        requires basis { length dictionary.now.basic ≤ self.old.room.basis }
        requires held { length dictionary.now.outside ≤ self.old.room.held }
        ensures { self.new ≡ begun self.old.room trail.now.bounds dictionary.now values.now }
    {
        copy_bounds(&mut self.bounds, trail);
        copy_basis(&mut self.start, dictionary);
        copy_held(&mut self.held, dictionary, values);
        self.steps.clear();
        self.op = Op::Cmp;
        self.left = Frac::whole(0);
        self.right = Frac::whole(0);
    }

    // Whether there are as many steps as there is room for.
    pub(crate) fn is_full(&self) -> bool
        ensures full { IsTrue result → length self.now.steps ≡ self.now.room.steps }
        ensures room { result ≡ false → length self.now.steps < self.now.room.steps }
    {
        self.steps.as_slice().len() == self.room.steps
    }

    // One step more.
    pub(crate) fn add_step(&mut self, leaving: u32, entering: u32)
        requires { length self.old.steps < self.old.room.steps }
        ensures { self.new ≡ with_step self.old (exchange_of leaving entering) }
    {
        self.steps.push((leaving, entering)).unwrap();
    }

    // An operation that does not fit.
    pub(crate) fn refuse(&mut self, refused: Refused)
        ensures { self.new ≡ with_operation self.old refused }
    {
        self.op = refused.op();
        self.left = refused.left().frac();
        self.right = refused.right().frac();
    }

    /// The same evidence, with room for as much.
    pub fn copied(&self, alloc: Global) -> Result<Evidence, AllocError>
        ensures { IfOk result (λ e. e ≡ self.now) }
    {
        let mut bounds = Vec::with_capacity(alloc, self.room.bounds)?;
        bounds.extend_from_slice(self.bounds.as_slice())?;
        let mut start = Vec::with_capacity(alloc, self.room.basis)?;
        start.extend_from_slice(self.start.as_slice())?;
        let mut held = Vec::with_capacity(alloc, self.room.held)?;
        held.extend_from_slice(self.held.as_slice())?;
        let mut steps = Vec::with_capacity(alloc, self.room.steps)?;
        steps.extend_from_slice(self.steps.as_slice())?;
        Ok(Evidence {
            room: self.room,
            bounds,
            start,
            held,
            steps,
            op: self.op,
            left: self.left,
            right: self.right,
        })
    }

    /// The bounds of the rows at that time.
    pub fn bounds(&self) -> &[(u32, Side, Frac)]
        ensures { map bound_in result.now ≡ self.now.start.bounds }
    {
        self.bounds.as_slice()
    }

    /// The columns in the basis before the first step.
    pub fn start(&self) -> &[u32]
        ensures { result.now ≡ self.now.start.basis }
    {
        self.start.as_slice()
    }

    /// What each column outside it held.
    pub fn held(&self) -> &[(u32, Frac)]
        ensures { map held_in result.now ≡ self.now.start.held }
    {
        self.held.as_slice()
    }

    /// The steps: the column that leaves, and the one that enters.
    pub fn steps(&self) -> &[(u32, u32)]
        ensures { map exchange_in result.now ≡ self.now.steps }
    {
        self.steps.as_slice()
    }

    /// The operation.
    pub fn op(&self) -> Op
        ensures { result ≡ self.now.operation.op }
    {
        self.op
    }

    /// Its left operand.
    pub fn left(&self) -> Frac
        ensures { number result ≡ self.now.operation.left }
    {
        self.left
    }

    /// Its right operand.
    pub fn right(&self) -> Frac
        ensures { number result ≡ self.now.operation.right }
    {
        self.right
    }
}
