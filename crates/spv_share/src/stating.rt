// Both sides tell each other equalities until nothing is new.

ghost use Rattle.std.specs.Prelude.{◌≡◌, length, IfOk, IfNone, IfSome};
ghost use Rattle.spv_simplex.specs.Checks.{IsFeasible};
ghost use Rattle.spv_explanations.specs.congruence_side.Holding.{HasNoClash};
ghost use Rattle.spv_share.specs.Both.{IsBoth, IsSound, KeepsLevels, Stays, told};
ghost use Rattle.spv_share.specs.States.{AllStands, AreApart, GoesOn, HasClosed, IsAnswer, IsAtPoint, IsOutcome};

use crate::both::Both;
use crate::ending::Outcome;
use crate::searching::Sought;
use spv_atoms::Step;
use spv_term::Terms;
use std::alloc::{AllocError, Global};

/// What was told comes to this.
#[derive(Debug, Drop)]
pub enum Shared {
    /// Both sides agree, and there is a point.
    Open,
    /// These steps end in a contradiction.
    Closed(Vec<Step>),
    /// A check of the tableau was stopped; its evidence stands, over bounds that literals of the relations are.
    Limit,
}

impl Both {
    // Where no equality is forced, and all stands that has to: a point.
    fn settle(&mut self, alloc: Global, terms: &Terms) -> Result<Outcome, AllocError>
        requires sound { IsSound terms.now self.old }
        requires clash { HasNoClash self.old.trail.graph }
        requires stand { AllStands self.old }
        requires apart { AreApart self.old (length self.old.relations.items) }
        ensures goes { GoesOn terms.now self.old self.new }
        ensures outcome { IfOk result (λ o. IsOutcome terms.now self.new o) }
    {
        if let Some(outcome) = self.check(alloc, terms)? {
            return Ok(outcome);
        }
        self.standing.tableau.law_tableau();
        Ok(Outcome::Open)
    }

    // Looks for equalities that the bounds force; `None` where the graph joins one more.
    fn search(&mut self, alloc: Global, terms: &Terms) -> Result<Option<Outcome>, AllocError>
        requires sound { IsSound terms.now self.old }
        requires clash { HasNoClash self.old.trail.graph }
        requires stand { AllStands self.old }
        requires point { IsFeasible self.old.standing.tableau }
        ensures goes { GoesOn terms.now self.old self.new }
        ensures outcome { IfOk result (λ o. IfSome o (λ x. IsOutcome terms.now self.new x)) }
        ensures none { IfOk result (λ o. IfNone o (HasClosed self.old self.new)) }
    {
        match self.seek(alloc, terms)? {
            Sought::Stopped => Ok(Some(Outcome::Stopped)),
            Sought::Joined => Ok(None),
            Sought::Apart => Ok(Some(self.settle(alloc, terms)?)),
        }
    }

    // The tableau gets all that literals say of rows, and each equality that the graph joins; or the path ends.
    fn give_both(&mut self, alloc: Global, terms: &Terms) -> Result<Option<Outcome>, AllocError>
        requires both { IsBoth terms.now self.old }
        ensures goes { GoesOn terms.now self.old self.new }
        ensures graph { self.new.trail.graph ≡ self.old.trail.graph }
        ensures outcome { IfOk result (λ o. IfSome o (λ x. IsOutcome terms.now self.new x)) }
        ensures stand { IfOk result (λ o. IfNone o (AllStands self.new)) }
    {
        if let Some(outcome) = self.give_literals(alloc, terms)? {
            return Ok(Some(outcome));
        }
        self.give_all(alloc, terms)
    }

    // The same, and a check of the tableau.
    fn check_given(&mut self, alloc: Global, terms: &Terms) -> Result<Option<Outcome>, AllocError>
        requires both { IsBoth terms.now self.old }
        ensures goes { GoesOn terms.now self.old self.new }
        ensures graph { self.new.trail.graph ≡ self.old.trail.graph }
        ensures outcome { IfOk result (λ o. IfSome o (λ x. IsOutcome terms.now self.new x)) }
        ensures stand { IfOk result (λ o. IfNone o (AllStands self.new)) }
        ensures point { IfOk result (λ o. IfNone o (IsAtPoint self.new.standing)) }
    {
        if let Some(outcome) = self.give_both(alloc, terms)? {
            return Ok(Some(outcome));
        }
        self.check(alloc, terms)
    }

    // What literals say and what the graph joins is given to the tableau, which is checked and searched.
    fn exchange(&mut self, alloc: Global, terms: &Terms) -> Result<Option<Outcome>, AllocError>
        requires both { IsBoth terms.now self.old }
        requires clash { HasNoClash self.old.trail.graph }
        ensures goes { GoesOn terms.now self.old self.new }
        ensures outcome { IfOk result (λ o. IfSome o (λ x. IsOutcome terms.now self.new x)) }
        ensures none { IfOk result (λ o. IfNone o (HasClosed self.old self.new)) }
    {
        if let Some(outcome) = self.check_given(alloc, terms)? {
            return Ok(Some(outcome));
        }
        self.search(alloc, terms)
    }

    // One round: `None` where the graph joins more than before.
    fn round(&mut self, alloc: Global, terms: &Terms) -> Result<Option<Outcome>, AllocError>
        requires both { IsBoth terms.now self.old }
        ensures goes { GoesOn terms.now self.old self.new }
        ensures outcome { IfOk result (λ o. IfSome o (λ x. IsOutcome terms.now self.new x)) }
        ensures none { IfOk result (λ o. IfNone o (HasClosed self.old self.new)) }
    {
        if let Some((first, second)) = self.trail.clash(alloc, terms)? {
            return Ok(Some(Outcome::Ended(first, second)));
        }
        self.exchange(alloc, terms)
    }

    // Rounds until one has an outcome: each other one joins the sides of a further equality.
    fn rounds(&mut self, alloc: Global, terms: &Terms) -> Result<Outcome, AllocError>
        requires both { IsBoth terms.now self.old }
        ensures goes { GoesOn terms.now self.old self.new }
        ensures outcome { IfOk result (λ o. IsOutcome terms.now self.new o) }
    {
        loop {
            match self.round(alloc, terms)? {
                Some(outcome) => return Ok(outcome),
                None => {}
            }
        }
    }

    // The answer of an outcome.
    fn answer(
        &self,
        alloc: Global,
        terms: &Terms,
        outcome: Outcome,
        facts: u32,
    ) -> Result<Shared, AllocError>
        requires both { IsBoth terms.now self.now }
        requires outcome { IsOutcome terms.now self.now outcome }
        ensures { IfOk result (λ s. IsAnswer terms.now self.now facts s) }
    {
        let _ = terms;
        match outcome {
            Outcome::Open => Ok(Shared::Open),
            Outcome::Stopped => Ok(Shared::Limit),
            Outcome::Ended(first, second) => Ok(Shared::Closed(
                self.trail
                    .derivation
                    .closing_steps(alloc, facts, first, second)?,
            )),
        }
    }

    /// What was told comes to this, where both sides tell each other equalities until nothing is new. `Closed`: on each path whose
    /// facts of the numbers that were told are the literals, the steps end in a contradiction; their own facts are numbered from
    /// `facts` + 1, and the terms that they name are in the arena. `Limit`: a check of the tableau was stopped, and its evidence
    /// stands. Where a step's number would be too large the answer is want of memory.
    pub fn state(&mut self, alloc: Global, terms: &Terms, facts: u32) -> Result<Shared, AllocError>
        requires both { IsBoth terms.now self.old }
        ensures both { IsBoth terms.now self.new }
        ensures levels { KeepsLevels terms.now self.old self.new }
        ensures told { told self.new ≡ told self.old }
        ensures stays { Stays self.old self.new }
        ensures answer { IfOk result (λ s. IsAnswer terms.now self.new facts s) }
    {
        let outcome = self.rounds(alloc, terms)?;
        self.answer(alloc, terms, outcome, facts)
    }
}
