// What the graph tells the tableau.

ghost use Rattle.std.specs.Prelude.{◌≡◌, ◌<◌, length, IfNone, IfOk, IfSome, Some, slice_get, true};
ghost use Rattle.spv_tableau_rules.specs.declared.constraints.saying.RowConstraint.TheVariants.{Equal};
ghost use Rattle.spv_congruence.specs.Keep.{IsNode};
ghost use Rattle.spv_arithmetic_side.specs.constraint_rows.Standing.{Stands};
ghost use Rattle.spv_share.specs.declared.relations.Claim.{Claim};
ghost use Rattle.spv_share.specs.declared.relations.Noted.{Noted};
ghost use Rattle.spv_share.specs.declared.relations.Related.{Related};
ghost use Rattle.spv_share.specs.Both.{IsBoth, IsClaimed, IsSound};
ghost use Rattle.spv_share.specs.States as spec;
ghost use Rattle.spv_share.specs.States.{ClaimsStand, GoesOn, IsOutcome, JoinedStand};

use crate::both::Both;
use crate::ending::Outcome;
use crate::relations::{Claim, Related};
use spv_arithmetic_side::farkas::law_told;
use spv_tableau_rules::constraints::RowConstraint;
use spv_term::{Head, Terms};
use std::alloc::{AllocError, Global};

// Whether a relation of this head is an equality.
fn is_equality(head: Head) -> bool
    ensures { result ≡ spec.is_equality head }
{
    match head {
        Head::Eq => true,
        _ => false,
    }
}

impl Both {
    // Whether the graph joins the sides of an equality.
    pub(crate) fn is_joined(&self, related: Related) -> bool
        requires left { IsNode self.now.trail.graph.nodes related.left }
        requires right { IsNode self.now.trail.graph.nodes related.right }
        ensures { result ≡ spec.is_joined self.now related }
    {
        is_equality(related.head) && self.trail.graph.same(related.left, related.right)
    }

    // Whether it does not join them.
    pub(crate) fn is_open(&self, related: Related) -> bool
        requires left { IsNode self.now.trail.graph.nodes related.left }
        requires right { IsNode self.now.trail.graph.nodes related.right }
        ensures { result ≡ spec.is_open self.now related }
    {
        is_equality(related.head) && !self.trail.graph.same(related.left, related.right)
    }

    // A fact says this of a row, and its bounds stand there then; or what excludes it there ends the path.
    fn give_claim(
        &mut self,
        alloc: Global,
        terms: &Terms,
        claim: Claim,
        fact: u32,
    ) -> Result<Option<Outcome>, AllocError>
        requires sound { IsSound terms.now self.old }
        requires claimed { IsClaimed terms.now self.old claim fact }
        ensures goes { GoesOn terms.now self.old self.new }
        ensures graph { self.new.trail.graph ≡ self.old.trail.graph }
        ensures outcome { IfOk result (λ o. IfSome o (λ x. IsOutcome terms.now self.new x)) }
        ensures stands { IfOk result (λ o. IfNone o (Stands self.new.standing claim.row claim.saying)) }
    {
        if self.say_claim(terms, claim, fact) {
            return Ok(None);
        }
        Ok(Some(self.end_claim(alloc, terms, claim, fact)?))
    }

    // The same for what was noted of a literal.
    fn give_noted(
        &mut self,
        alloc: Global,
        terms: &Terms,
        place: usize,
    ) -> Result<Option<Outcome>, AllocError>
        requires both { IsBoth terms.now self.old }
        requires place { place < length self.old.claims.items }
        ensures goes { GoesOn terms.now self.old self.new }
        ensures graph { self.new.trail.graph ≡ self.old.trail.graph }
        ensures outcome { IfOk result (λ o. IfSome o (λ x. IsOutcome terms.now self.new x)) }
        ensures stands { IfOk result (λ o. IfNone o ((n : Noted) (c : Claim) → slice_get self.old.claims.items place ≡ Some n → n.claim ≡ Some c → Stands self.new.standing c.row c.saying)) }
    {
        let noted = self.claims[place];
        match noted.claim {
            Some(claim) => self.give_claim(alloc, terms, claim, noted.fact),
            None => Ok(None),
        }
    }

    // The tableau gets all that the literals say of rows, or the path ends.
    pub(crate) fn give_literals(
        &mut self,
        alloc: Global,
        terms: &Terms,
    ) -> Result<Option<Outcome>, AllocError>
        requires both { IsBoth terms.now self.old }
        ensures goes { GoesOn terms.now self.old self.new }
        ensures graph { self.new.trail.graph ≡ self.old.trail.graph }
        ensures outcome { IfOk result (λ o. IfSome o (λ x. IsOutcome terms.now self.new x)) }
        ensures stands { IfOk result (λ o. IfNone o (ClaimsStand self.new)) }
    {
        for place in 0..self.claims.as_slice().len() {
            if let Some(outcome) = self.give_noted(alloc, terms, place)? {
                return Ok(Some(outcome));
            }
        }
        Ok(None)
    }

    // The tableau gets an equality that the graph joins, with the fact that it is one; or the path ends.
    fn give(
        &mut self,
        alloc: Global,
        terms: &Terms,
        related: Related,
    ) -> Result<Option<Outcome>, AllocError>
        requires sound { IsSound terms.now self.old }
        requires there { slice_get self.old.relations.items related.row ≡ Some related }
        requires joined { spec.is_joined self.old related ≡ true }
        ensures goes { GoesOn terms.now self.old self.new }
        ensures graph { self.new.trail.graph ≡ self.old.trail.graph }
        ensures outcome { IfOk result (λ o. IfSome o (λ x. IsOutcome terms.now self.new x)) }
        ensures stands { IfOk result (λ o. IfNone o (Stands self.new.standing related.row Equal)) }
    {
        law_told();
        let number = self
            .trail
            .equation(alloc, terms, related.left, related.right)?;
        let claim = Claim {
            row: related.row,
            saying: RowConstraint::Equal,
        };
        self.give_claim(alloc, terms, claim, number)
    }

    // The same where the relation at a place is such an equality that does not stand yet.
    fn give_at(
        &mut self,
        alloc: Global,
        terms: &Terms,
        place: usize,
    ) -> Result<Option<Outcome>, AllocError>
        requires sound { IsSound terms.now self.old }
        requires place { place < length self.old.relations.items }
        ensures goes { GoesOn terms.now self.old self.new }
        ensures graph { self.new.trail.graph ≡ self.old.trail.graph }
        ensures outcome { IfOk result (λ o. IfSome o (λ x. IsOutcome terms.now self.new x)) }
        ensures stands { IfOk result (λ o. IfNone o ((r : Related) → slice_get self.old.relations.items place ≡ Some r → spec.is_joined self.old r ≡ true → Stands self.new.standing place Equal)) }
    {
        let related = self.relations[place];
        if !self.is_joined(related) {
            return Ok(None);
        }
        if self.standing.stands(related.row, RowConstraint::Equal) {
            return Ok(None);
        }
        self.give(alloc, terms, related)
    }

    // The tableau gets each equality that the graph joins, or the path ends.
    pub(crate) fn give_all(
        &mut self,
        alloc: Global,
        terms: &Terms,
    ) -> Result<Option<Outcome>, AllocError>
        requires sound { IsSound terms.now self.old }
        ensures goes { GoesOn terms.now self.old self.new }
        ensures graph { self.new.trail.graph ≡ self.old.trail.graph }
        ensures outcome { IfOk result (λ o. IfSome o (λ x. IsOutcome terms.now self.new x)) }
        ensures stands { IfOk result (λ o. IfNone o (JoinedStand self.new)) }
    {
        for place in 0..self.relations.as_slice().len() {
            if let Some(outcome) = self.give_at(alloc, terms, place)? {
                return Ok(Some(outcome));
            }
        }
        Ok(None)
    }
}
