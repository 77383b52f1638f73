// What a check of the tableau comes to, and the end of a path by bounds.

ghost use Rattle.std.specs.Prelude.{◌≡◌, Some, IfOk, IfSome, IfNone};
ghost use Rattle.spv_simplex.specs.declared.checked.Checked.TheVariants as checked;
ghost use Rattle.spv_simplex.specs.Checks.{IsInfeasible};
ghost use Rattle.spv_arithmetic_side.specs.constraint_rows.Said.{IsOpposed};
ghost use Rattle.spv_share.specs.Both.{IsClaimed, IsSound};
ghost use Rattle.spv_share.specs.States.{GoesOn, IsAtPoint, IsOutcome, IsStill};

use crate::both::Both;
use crate::relations::Claim;
use spv_arithmetic_side::constraint_rows::end_opposed;
use spv_arithmetic_side::farkas::law_refuted;
use spv_simplex::Checked;
use spv_term::Terms;
use std::alloc::{AllocError, Global};

// What a round came to.
#[derive(Clone, Copy, Debug)]
pub(crate) enum Outcome {
    // These one or two facts end the path.
    Ended(u32, Option<u32>),
    // Both sides agree.
    Open,
    // A check of the tableau was stopped.
    Stopped,
}

impl Both {
    // The end of the path by the contradiction that the last check found.
    fn end(&mut self, alloc: Global, terms: &Terms) -> Result<Outcome, AllocError>
        requires sound { IsSound terms.now self.old }
        requires answered { self.old.standing.tableau.answer ≡ Some checked.Infeasible }
        requires infeasible { IsInfeasible self.old.standing.tableau }
        ensures goes { GoesOn terms.now self.old self.new }
        ensures still { IsStill self.old self.new }
        ensures outcome { IfOk result (λ o. IsOutcome terms.now self.new o) }
    {
        law_refuted();
        terms.law_arena();
        let number = self
            .standing
            .end(alloc, &mut self.trail.derivation, self.one, self.zero)?;
        Ok(Outcome::Ended(number, None))
    }

    // Checks the bounds that stand: `None` where a point meets them.
    pub(crate) fn check(
        &mut self,
        alloc: Global,
        terms: &Terms,
    ) -> Result<Option<Outcome>, AllocError>
        requires sound { IsSound terms.now self.old }
        ensures goes { GoesOn terms.now self.old self.new }
        ensures still { IsStill self.old self.new }
        ensures outcome { IfOk result (λ o. IfSome o (λ x. IsOutcome terms.now self.new x)) }
        ensures point { IfOk result (λ o. IfNone o (IsAtPoint self.new.standing)) }
    {
        match self.standing.check() {
            Checked::Feasible => Ok(None),
            Checked::Infeasible => Ok(Some(self.end(alloc, terms)?)),
            Checked::Wide => Ok(Some(Outcome::Stopped)),
            Checked::Pivots => Ok(Some(Outcome::Stopped)),
        }
    }

    // The end of the path by what a fact says of a row, and what stands there and excludes it.
    pub(crate) fn end_claim(
        &mut self,
        alloc: Global,
        terms: &Terms,
        claim: Claim,
        fact: u32,
    ) -> Result<Outcome, AllocError>
        requires sound { IsSound terms.now self.old }
        requires claimed { IsClaimed terms.now self.old claim fact }
        requires opposed { IsOpposed self.old.standing claim.row claim.saying }
        ensures goes { GoesOn terms.now self.old self.new }
        ensures still { IsStill self.old self.new }
        ensures outcome { IfOk result (λ o. IsOutcome terms.now self.new o) }
    {
        law_refuted();
        terms.law_arena();
        let from = self.standing.opposed(claim.row, claim.saying, fact);
        let number = end_opposed(alloc, &mut self.trail.derivation, self.one, self.zero, from)?;
        Ok(Outcome::Ended(number, None))
    }
}
