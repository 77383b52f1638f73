// Telling a literal to both sides.

ghost use Rattle.std.specs.Prelude.{◌≡◌, ◌++◌, ◌∷◌, [], false, IfSome, IsTrue, OnErr, OnOk};
ghost use Rattle.spv_term.specs.Arena.{tree};
ghost use Rattle.spv_derivations.specs.derivation.Derivation.{fact_at, literal};
ghost use Rattle.spv_explanations.specs.congruence_side.Holding.{Grows, MayTell};
ghost use Rattle.spv_explanations.specs.congruence_side.Telling.{literal_ties, ties};
ghost use Rattle.spv_arithmetic_side.specs.constraint_rows.Said.{IsOpposed};
ghost use Rattle.spv_arithmetic_side.specs.constraint_rows.Standing.{AddsSome, Stands};
ghost use Rattle.spv_share.specs.Relations.{claim, find};
ghost use Rattle.spv_share.specs.Both.{IsBoth, IsClaimed, IsSound, KeepsLevels, Stays, told};

use crate::both::Both;
use crate::relations::{Claim, Noted, claim_of};
use spv_arithmetic_side::farkas::law_told;
use spv_derivations::derivation::Part;
use spv_term::{TermId, Terms};
use std::alloc::AllocError;

// One literal more. For want of memory the others are as they were.
fn push_claim(claims: &mut Vec<Noted>, claim: Option<Claim>, fact: u32) -> Result<(), AllocError>
    ensures ok { OnOk result (claims.new.items ≡ claims.old.items ++ record { claim = claim; fact = fact } ∷ []) }
    ensures err { OnErr result (claims.new.items ≡ claims.old.items) }
{
    claims.push(Noted { claim, fact })?;
    Ok(())
}

impl Both {
    // A fact says this of a row: its bounds stand there then. The answer is false, and nothing changes, where something stands there
    // that excludes it.
    pub(crate) fn say_claim(&mut self, terms: &Terms, claim: Claim, fact: u32) -> bool
        requires sound { IsSound terms.now self.old }
        requires claimed { IsClaimed terms.now self.old claim fact }
        ensures sound { IsSound terms.now self.new }
        ensures adds { AddsSome self.old.standing self.new.standing }
        ensures trail { self.new.trail ≡ self.old.trail }
        ensures relations { self.new.relations ≡ self.old.relations }
        ensures claims { self.new.claims ≡ self.old.claims }
        ensures stands { IsTrue result → Stands self.new.standing claim.row claim.saying }
        ensures opposed { result ≡ false → IsOpposed self.old.standing claim.row claim.saying }
        ensures same { result ≡ false → self.new ≡ self.old }
    {
        let _ = terms;
        self.standing.say(claim.row, claim.saying, fact)
    }

    // The same for a literal that may be one of no row. What is excluded is left for when it is asked what was told comes to.
    fn say_literal(&mut self, terms: &Terms, claim: Option<Claim>, fact: u32)
        requires sound { IsSound terms.now self.old }
        requires claimed { IfSome claim (λ c. IsClaimed terms.now self.old c fact) }
        ensures sound { IsSound terms.now self.new }
        ensures adds { AddsSome self.old.standing self.new.standing }
        ensures trail { self.new.trail ≡ self.old.trail }
        ensures relations { self.new.relations ≡ self.old.relations }
        ensures claims { self.new.claims ≡ self.old.claims }
    {
        if let Some(claim) = claim {
            self.say_claim(terms, claim, fact);
        }
    }

    // Tells both sides a literal. For want of memory some of it may be done.
    fn tell_all(
        &mut self,
        terms: &Terms,
        atom: TermId,
        part: Part,
        why: u32,
    ) -> Result<(), AllocError>
        requires both { IsBoth terms.now self.old }
        requires may { MayTell terms.now self.old.trail atom part }
        ensures sound { IsSound terms.now self.new }
        ensures levels { KeepsLevels terms.now self.old self.new }
        ensures grows { Grows self.old.trail self.new.trail }
        ensures stays { Stays self.old self.new }
        ensures both { OnOk result (IsBoth terms.now self.new) }
        ensures told { OnOk result (told self.new ≡ told self.old ++ record { atom = atom; part = part; why = why } ∷ []) }
        ensures ties { OnOk result (ties self.new.trail.graph.told
            ≡ ties self.old.trail.graph.told ++ literal_ties terms.now self.old.trail.truth self.old.trail.falsity atom part) }
    {
        law_told();
        let number = self.trail.tell(terms, atom, part, why)?;
        let claim = claim_of(self.relations.as_slice(), atom, part);
        self.say_literal(terms, claim, number);
        push_claim(&mut self.claims, claim, number)
    }

    /// Tells a literal to both sides. The graph joins its term with TRUE or with FALSE, and joins or separates the sides of an
    /// equation that is no connective. The tableau gets the bounds that the literal of a relation of whole numbers is, unless
    /// something stands on its row that excludes them: then `state` will end the path. `why` is the number of the literal among the facts of the path. For want of memory
    /// nothing more is told.
    pub fn tell(
        &mut self,
        terms: &Terms,
        atom: TermId,
        part: Part,
        why: u32,
    ) -> Result<(), AllocError>
        requires both { IsBoth terms.now self.old }
        requires may { MayTell terms.now self.old.trail atom part }
        ensures both { IsBoth terms.now self.new }
        ensures levels { KeepsLevels terms.now self.old self.new }
        ensures told { OnOk result (told self.new ≡ told self.old ++ record { atom = atom; part = part; why = why } ∷ []) }
        ensures ties { OnOk result (ties self.new.trail.graph.told
            ≡ ties self.old.trail.graph.told ++ literal_ties terms.now self.old.trail.truth self.old.trail.falsity atom part) }
        ensures err { OnErr result (told self.new ≡ told self.old) }
        ensures stays { Stays self.old self.new }
    {
        let level = self.mark(terms);
        match self.tell_all(terms, atom, part, why) {
            Ok(()) => Ok(()),
            Err(fault) => {
                self.undo(terms, &level);
                Err(fault)
            }
        }
    }
}
