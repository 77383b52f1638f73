// Two terms that are the same and may not be, as the end of the path.

ghost use Rattle.std.specs.Prelude.{◌≡◌, ◌<◌, length, IfOk, IfSome, IfNone};
ghost use Rattle.spv_logic.specs.Formulas.{equation};
ghost use Rattle.spv_term.specs.Arena.{tree};
ghost use Rattle.spv_congruence.specs.Keep.{IsNode};
ghost use Rattle.spv_derivations.specs.derivation.Derivation.{fact_at};
ghost use Rattle.spv_derivations.specs.derivation.Literals.{literals};
ghost use Rattle.spv_derivations.specs.derivation.Steps.{IsEnd};
ghost use Rattle.spv_explanations.specs.equalities.Reasons.{AreSame, Closes, Equates, MayNotBeSame, MayReason};
ghost use Rattle.spv_explanations.specs.congruence_side.Holding as spec;
ghost use Rattle.spv_explanations.specs.congruence_side.Holding.{Grows, HasNoClash, Holds};

use crate::congruence_side::trail::Trail;
use crate::equalities::{contradiction, reason};
use spv_congruence::Fact;
use spv_term::{TermId, Terms};
use std::alloc::{AllocError, Global};

// Whether a fact separates two terms.
fn denies(fact: Fact, s: TermId, t: TermId) -> bool
    ensures { result ≡ spec.denies s t fact }
{
    !fact.equal && (fact.left.0 == s.0 && fact.right.0 == t.0)
}

// The reason of the first fact that separates two terms.
fn denial(facts: &[Fact], s: TermId, t: TermId) -> Option<u32>
    ensures { result ≡ spec.denial facts.now s t }
{
    for fact in facts {
        if denies(*fact, s, t) {
            return Some(fact.why);
        }
    }
    None
}

impl Trail {
    // Ends the path by two terms that are the same and may not be.
    fn end_by(
        &mut self,
        alloc: Global,
        terms: &Terms,
        s: TermId,
        t: TermId,
    ) -> Result<(u32, Option<u32>), AllocError>
        requires holds { Holds terms.now self.old }
        requires same { AreSame self.old.graph s t }
        requires why { MayNotBeSame terms.now self.old.graph self.old.derivation s t (spec.denial self.old.facts.items s t) }
        ensures holds { Holds terms.now self.new }
        ensures grows { Grows self.old self.new }
        ensures graph { self.new.graph ≡ self.old.graph }
        ensures literals { literals self.new.derivation ≡ literals self.old.derivation }
        ensures ends { IfOk result (λ p. IsEnd terms.now self.new.derivation p.0 p.1) }
    {
        self.graph.law_terms();
        let denied = denial(self.facts.as_slice(), s, t);
        contradiction(
            alloc,
            &mut self.derivation,
            terms,
            &self.graph,
            s,
            t,
            denied,
        )
    }

    /// One or two facts that end the path, where two terms of the graph are the same that may not be. For want of memory the
    /// trail is as it was.
    pub fn clash(
        &mut self,
        alloc: Global,
        terms: &Terms,
    ) -> Result<Option<(u32, Option<u32>)>, AllocError>
        requires holds { Holds terms.now self.old }
        ensures holds { Holds terms.now self.new }
        ensures grows { Grows self.old self.new }
        ensures graph { self.new.graph ≡ self.old.graph }
        ensures literals { literals self.new.derivation ≡ literals self.old.derivation }
        ensures ends { IfOk result (λ o. IfSome o (λ p. IsEnd terms.now self.new.derivation p.0 p.1)) }
        ensures none { IfOk result (λ o. IfNone o (HasNoClash self.old.graph)) }
    {
        let Some((s, t)) = self.graph.clash() else {
            return Ok(None);
        };
        self.graph.law_terms();
        let end = self.end_by(alloc, terms, s, t)?;
        Ok(Some(end))
    }

    /// The number of the fact that two terms are equal, which are the same in the graph.
    pub fn equation(
        &mut self,
        alloc: Global,
        terms: &Terms,
        s: TermId,
        t: TermId,
    ) -> Result<u32, AllocError>
        requires holds { Holds terms.now self.old }
        requires same { AreSame self.old.graph s t }
        ensures holds { Holds terms.now self.new }
        ensures grows { Grows self.old self.new }
        ensures graph { self.new.graph ≡ self.old.graph }
        ensures literals { literals self.new.derivation ≡ literals self.old.derivation }
        ensures fact { IfOk result (λ n. Equates terms.now self.new.derivation n s t) }
    {
        self.graph.law_terms();
        reason(alloc, &mut self.derivation, terms, &self.graph, s, t)
    }
}
