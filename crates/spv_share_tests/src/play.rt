// Doing the steps of a case.

ghost use Rattle.std.specs.Prelude.{◌≡◌, ◌<◌, ◌≤◌, List, length, slice_get, IfOk, OnOk, IsTrue};
ghost use Rattle.spv_logic.specs.declared.conditions.TermId.{TermId};
ghost use Rattle.spv_term.specs.Arena.{AllBelow, Extends, IsArena};
ghost use Rattle.spv_derivations.specs.derivation.Derivation.{IsComparison, PartFits};
ghost use Rattle.spv_derivations.specs.derivation.Derived.{IsFalseTerm, IsTrueTerm};
ghost use Rattle.spv_arithmetic_side.specs.farkas.Refuted.{AreOneAndZero};
ghost use Rattle.spv_explanations.specs.congruence_side.Holding.{MayTell};
ghost use Rattle.spv_share.specs.Both.{AreEnds};
ghost use Rattle.spv_share_tests.specs.Plays.{IsReady};

use crate::shown;
use spv_arithmetic_side::slack_rows::RowFault;
use spv_derivations::derivation::Part;
use spv_proof::sums::is_number;
use spv_proof_steps::{is_truth, sides};
use spv_share::{Both, Ends, Level};
use spv_term::{Head, TermFault, TermId, Terms};
use std::alloc::{AllocError, Global};

/// One step of a case.
#[derive(Clone, Copy, Debug)]
pub enum Step {
    Tell(i64, Part),
    Mark,
    Undo,
    State,
}

// Both sides, and the mark that was made last.
#[derive(Drop)]
pub(crate) struct Play {
    pub(crate) both: Both,
    pub(crate) level: Level,
}

// TRUE and FALSE.
#[tactic(auto, using(spv_term::proofs::ArenaLemmas::growth))]
fn truths(terms: &mut Terms) -> Result<(TermId, TermId), TermFault>
    ensures truth { IfOk result (λ p. IsTrueTerm terms.new p.0) }
    ensures falsity { IfOk result (λ p. IsFalseTerm terms.new p.1) }
    ensures grows { Extends terms.old terms.new }
{
    let truth = terms.make(Head::True, &[])?;
    let falsity = terms.make(Head::False, &[])?;
    Ok((truth, falsity))
}

// 1 and 0.
#[tactic(auto, using(spv_term::proofs::ArenaLemmas::growth))]
fn one_and_zero(terms: &mut Terms) -> Result<(TermId, TermId), TermFault>
    ensures numbers { IfOk result (λ p. AreOneAndZero terms.new p.0 p.1) }
    ensures grows { Extends terms.old terms.new }
{
    let one = terms.make(Head::Num(1), &[])?;
    let zero = terms.make(Head::Num(0), &[])?;
    Ok((one, zero))
}

// The terms that both sides need.
#[tactic(auto, using(spv_term::proofs::ArenaLemmas::growth))]
fn ends(terms: &mut Terms) -> Result<Ends, TermFault>
    ensures { IfOk result (λ e. AreEnds terms.new e) }
{
    let (truth, falsity) = truths(terms)?;
    let (one, zero) = one_and_zero(terms)?;
    Ok(Ends {
        truth,
        falsity,
        one,
        zero,
    })
}

// Whether all of these terms are there.
fn are_inside(terms: &Terms, atoms: &[TermId]) -> bool
    ensures { IsTrue result → AllBelow (length terms.now.nodes) atoms.now }
{
    for atom in atoms {
        if atom.0 >= terms.len() {
            return false;
        }
    }
    true
}

// Whether a term is an equation of two whole numbers.
fn is_comparison(terms: &Terms, t: TermId) -> bool
    requires { t.0 < length terms.now.nodes }
    ensures { IsTrue result → IsComparison terms.now t }
{
    match sides(terms, t) {
        Some((left, right)) => is_number(terms, left) && is_number(terms, right),
        None => false,
    }
}

// Whether this may be told of a formula.
fn fits(terms: &Terms, t: TermId, part: Part) -> bool
    requires { t.0 < length terms.now.nodes }
    ensures { IsTrue result → PartFits terms.now t part }
{
    match part {
        Part::True => true,
        Part::False => true,
        Part::Below => is_comparison(terms, t),
        Part::Above => is_comparison(terms, t),
    }
}

impl Play {
    // Tells a literal.
    fn tell_atom(
        &mut self,
        terms: &Terms,
        atoms: &[TermId],
        atom: TermId,
        part: Part,
    ) -> Result<(), AllocError>
        requires ready { IsReady terms.now self.old atoms.now }
        requires may { MayTell terms.now self.old.both.trail atom part }
        ensures { OnOk result (IsReady terms.now self.new atoms.now) }
    {
        let _ = atoms;
        self.both.tell(terms, atom, part, 1)
    }

    // Tells the literal of an atom at a place, if there is one of which this may be told.
    fn tell(
        &mut self,
        terms: &Terms,
        atoms: &[TermId],
        place: usize,
        part: Part,
    ) -> Result<(), AllocError>
        requires below { AllBelow (length terms.now.nodes) atoms.now }
        requires ready { IsReady terms.now self.old atoms.now }
        ensures { OnOk result (IsReady terms.now self.new atoms.now) }
    {
        if place >= atoms.len() {
            return Ok(());
        }
        let atom = atoms[place];
        if !is_truth(terms, atom) {
            return Ok(());
        }
        if !fits(terms, atom, part) {
            return Ok(());
        }
        self.tell_atom(terms, atoms, atom, part)
    }

    // Prints what was told comes to.
    fn state(
        &mut self,
        alloc: Global,
        terms: &Terms,
        atoms: &[TermId],
        out: &mut Vec<u8>,
    ) -> Result<(), AllocError>
        requires ready { IsReady terms.now self.old atoms.now }
        ensures { OnOk result (IsReady terms.now self.new atoms.now) }
    {
        let _ = atoms;
        let shared = self.both.state(alloc, terms, 1)?;
        shown::add_state(out, &shared)
    }

    // Does a step.
    fn step(
        &mut self,
        alloc: Global,
        terms: &Terms,
        atoms: &[TermId],
        step: Step,
        out: &mut Vec<u8>,
    ) -> Result<(), AllocError>
        requires below { AllBelow (length terms.now.nodes) atoms.now }
        requires ready { IsReady terms.now self.old atoms.now }
        ensures { OnOk result (IsReady terms.now self.new atoms.now) }
    {
        match step {
            Step::Tell(place, part) => self.tell(
                terms,
                atoms,
                usize::try_from(place).unwrap_or(usize::MAX),
                part,
            ),
            Step::Mark => {
                self.level = self.both.mark(terms);
                Ok(())
            }
            Step::Undo => {
                self.both.undo(terms, &self.level);
                Ok(())
            }
            Step::State => self.state(alloc, terms, atoms, out),
        }
    }
}

// Both sides for these atoms.
fn open(alloc: Global, terms: &mut Terms, atoms: &[TermId], pivots: u64) -> Result<Play, RowFault>
    ensures below { OnOk result (AllBelow (length terms.new.nodes) atoms.now) }
    ensures ready { IfOk result (λ p. IsReady terms.new p atoms.now) }
{
    let Ok(ends) = ends(terms) else {
        return Err(RowFault::Memory);
    };
    if !are_inside(terms, atoms) {
        return Err(RowFault::Memory);
    }
    let both = Both::open(alloc, terms, atoms, ends, pivots.min(1_000_000))?;
    let level = both.mark(terms);
    Ok(Play { both, level })
}

/// Opens both sides for these atoms, and does the steps; false where they cannot be opened.
pub(crate) fn do_steps(
    alloc: Global,
    terms: &mut Terms,
    atoms: &[TermId],
    steps: &[Step],
    pivots: u64,
    out: &mut Vec<u8>,
) -> Result<bool, AllocError> {
    let Ok(mut play) = open(alloc, terms, atoms, pivots) else {
        return Ok(false);
    };
    for step in steps {
        play.step(alloc, terms, atoms, *step, out)?;
    }
    Ok(true)
}
