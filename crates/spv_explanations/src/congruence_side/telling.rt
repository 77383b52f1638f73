// Telling a literal.

ghost use Rattle.std.specs.Prelude.{◌≡◌, ◌<◌, ◌++◌, [], ◌∷◌, length, true, false, Some, IfOk, OnErr, OnOk};
ghost use Rattle.spv_logic.specs.Formulas.{negation};
ghost use Rattle.spv_logic.specs.declared.conditions.TermId.{TermId};
ghost use Rattle.spv_term.specs.Arena.{Arena, IsArena, tree};
ghost use Rattle.spv_atoms.specs.declared.proofs.Relation.TheVariants as relation;
ghost use Rattle.spv_congruence.specs.Keep.{IsNode};
ghost use Rattle.spv_derivations.specs.derivation.Derivation.{PartFits, fact_at, literal};
ghost use Rattle.spv_derivations.specs.derivation.Derived.{IsApart, IsFormula, IsSum};
ghost use Rattle.spv_derivations.specs.declared.derivation.entries.Entry.TheVariants as entry;
ghost use Rattle.spv_derivations.specs.derivation.Literals.{literals};
ghost use Rattle.spv_derivations.specs.derivation.Sides.{entry_sides, sides_at};
ghost use Rattle.spv_explanations.specs.congruence_side.Telling.{equation_sides, literal_ties, sides_tie, ties, value_tie};
ghost use Rattle.spv_explanations.specs.congruence_side.Holding.{Denies, Grows, Holds, IsBackedFact, IsOrder, MayTell};

use crate::congruence_side::entries::{
    apart_entry, denied_entry, false_entry, sum_entry, told_entry, true_entry,
};
use crate::congruence_side::sides::equation_sides;
use crate::congruence_side::trail::Trail;
use spv_congruence::Fact;
use spv_derivations::derivation::{Part, law_sides};
use spv_frac::Frac;
use spv_logic::list::List;
use spv_term::{TermId, Terms};
use std::alloc::AllocError;

impl Trail {
    // A literal as a fact of the derivation.
    fn told(&mut self, terms: &Terms, t: TermId, part: Part, why: u32) -> Result<u32, AllocError>
        requires holds { Holds terms.now self.old }
        requires may { MayTell terms.now self.old t part }
        ensures holds { Holds terms.now self.new }
        ensures grows { Grows self.old self.new }
        ensures graph { self.new.graph ≡ self.old.graph }
        ensures fact { IfOk result (λ n. fact_at terms.now self.new.derivation n ≡ Some (literal (tree terms.now t) part)) }
        ensures sides { IfOk result (λ n. sides_at terms.now self.new.derivation n ≡ entry_sides terms.now (entry.Told t part why)) }
        ensures literals { OnOk result (literals self.new.derivation ≡ literals self.old.derivation ++ record { atom = t; part = part; why = why } ∷ []) }
    {
        let _ = terms;
        told_entry(&mut self.derivation, t, part, why)
    }

    // A formula that is a fact is joined with TRUE.
    fn set_true(&mut self, terms: &Terms, t: TermId, k: u32) -> Result<(), AllocError>
        requires holds { Holds terms.now self.old }
        requires formula { IsFormula terms.now t }
        requires node { IsNode self.old.graph.nodes t }
        requires fact { fact_at terms.now self.old.derivation k ≡ Some (tree terms.now t) }
        ensures holds { Holds terms.now self.new }
        ensures grows { Grows self.old self.new }
        ensures told { OnOk result (ties self.new.graph.told ≡ ties self.old.graph.told ++ value_tie t self.old.truth ∷ []) }
        ensures literals { literals self.new.derivation ≡ literals self.old.derivation }
    {
        let why = true_entry(&mut self.derivation, t, self.truth, k)?;
        let fact = Fact {
            left: t,
            right: self.truth,
            why,
            equal: true,
        };
        self.enter(terms, fact)
    }

    // A formula whose negation is a fact is joined with FALSE.
    fn set_false(&mut self, terms: &Terms, t: TermId, k: u32) -> Result<(), AllocError>
        requires holds { Holds terms.now self.old }
        requires formula { IsFormula terms.now t }
        requires node { IsNode self.old.graph.nodes t }
        requires fact { fact_at terms.now self.old.derivation k ≡ Some (negation (tree terms.now t)) }
        ensures holds { Holds terms.now self.new }
        ensures grows { Grows self.old self.new }
        ensures told { OnOk result (ties self.new.graph.told ≡ ties self.old.graph.told ++ value_tie t self.old.falsity ∷ []) }
        ensures literals { literals self.new.derivation ≡ literals self.old.derivation }
    {
        let why = false_entry(&mut self.derivation, t, self.falsity, k)?;
        let fact = Fact {
            left: t,
            right: self.falsity,
            why,
            equal: true,
        };
        self.enter(terms, fact)
    }

    // An equation, of which a fact puts one side below the other, is joined with FALSE; the number of the fact that it equals it.
    fn set_apart(&mut self, terms: &Terms, t: TermId, k: u32) -> Result<u32, AllocError>
        requires holds { Holds terms.now self.old }
        requires apart { IsApart terms.now self.old.derivation t k }
        requires node { IsNode self.old.graph.nodes t }
        ensures holds { Holds terms.now self.new }
        ensures grows { Grows self.old self.new }
        ensures told { OnOk result (ties self.new.graph.told ≡ ties self.old.graph.told ++ value_tie t self.old.falsity ∷ []) }
        ensures denies { IfOk result (λ n. Denies terms.now self.new.derivation t n) }
        ensures literals { literals self.new.derivation ≡ literals self.old.derivation }
    {
        terms.law_arena();
        law_sides();
        let why = apart_entry(&mut self.derivation, t, self.falsity, k)?;
        let fact = Fact {
            left: t,
            right: self.falsity,
            why,
            equal: true,
        };
        self.enter(terms, fact)?;
        Ok(why)
    }

    // The negation of a formula that by a fact equals FALSE.
    fn deny(&mut self, terms: &Terms, t: TermId, k: u32) -> Result<u32, AllocError>
        requires holds { Holds terms.now self.old }
        requires denies { Denies terms.now self.old.derivation t k }
        ensures holds { Holds terms.now self.new }
        ensures grows { Grows self.old self.new }
        ensures graph { self.new.graph ≡ self.old.graph }
        ensures fact { IfOk result (λ n. fact_at terms.now self.new.derivation n ≡ Some (negation (tree terms.now t))) }
        ensures literals { literals self.new.derivation ≡ literals self.old.derivation }
    {
        let _ = terms;
        denied_entry(&mut self.derivation, t, k)
    }

    // The sides of an equation that is no connective are joined or separated by a fact.
    fn tie_sides(
        &mut self,
        terms: &Terms,
        t: TermId,
        why: u32,
        equal: bool,
    ) -> Result<(), AllocError>
        requires holds { Holds terms.now self.old }
        requires within { t.0 < length terms.now.nodes }
        requires node { IsNode self.old.graph.nodes t }
        requires backed { (s u : TermId) → equation_sides terms.now t ≡ Some (s, u)
            → IsBackedFact terms.now self.old.derivation (record { left = s; right = u; why = why; equal = equal }) }
        ensures holds { Holds terms.now self.new }
        ensures grows { Grows self.old self.new }
        ensures derivation { self.new.derivation ≡ self.old.derivation }
        ensures told { OnOk result (ties self.new.graph.told ≡ ties self.old.graph.told ++ sides_tie equal (equation_sides terms.now t)) }
    {
        let Some((left, right)) = equation_sides(terms, t) else {
            return Ok(());
        };
        self.graph.law_terms();
        let fact = Fact {
            left,
            right,
            why,
            equal,
        };
        self.enter(terms, fact)
    }

    // Tells that a formula is true.
    fn tell_true(&mut self, terms: &Terms, t: TermId, why: u32) -> Result<u32, AllocError>
        requires holds { Holds terms.now self.old }
        requires may { MayTell terms.now self.old t Part.True }
        ensures holds { Holds terms.now self.new }
        ensures grows { Grows self.old self.new }
        ensures told { OnOk result (ties self.new.graph.told
            ≡ ties self.old.graph.told ++ literal_ties terms.now self.old.truth self.old.falsity t Part.True) }
        ensures fact { IfOk result (λ n. fact_at terms.now self.new.derivation n ≡ Some (literal (tree terms.now t) Part.True)) }
        ensures literals { OnOk result (literals self.new.derivation ≡ literals self.old.derivation ++ record { atom = t; part = Part.True; why = why } ∷ []) }
    {
        let number = self.told(terms, t, Part::True, why)?;
        self.set_true(terms, t, number)?;
        self.tie_sides(terms, t, number, true)?;
        Ok(number)
    }

    // Tells that a formula is false.
    fn tell_false(&mut self, terms: &Terms, t: TermId, why: u32) -> Result<u32, AllocError>
        requires holds { Holds terms.now self.old }
        requires may { MayTell terms.now self.old t Part.False }
        ensures holds { Holds terms.now self.new }
        ensures grows { Grows self.old self.new }
        ensures told { OnOk result (ties self.new.graph.told
            ≡ ties self.old.graph.told ++ literal_ties terms.now self.old.truth self.old.falsity t Part.False) }
        ensures fact { IfOk result (λ n. fact_at terms.now self.new.derivation n ≡ Some (literal (tree terms.now t) Part.False)) }
        ensures literals { OnOk result (literals self.new.derivation ≡ literals self.old.derivation ++ record { atom = t; part = Part.False; why = why } ∷ []) }
    {
        terms.law_arena();
        let number = self.told(terms, t, Part::False, why)?;
        self.set_false(terms, t, number)?;
        self.tie_sides(terms, t, number, false)?;
        Ok(number)
    }

    // What follows for the graph of a fact that puts one side of an equation below the other.
    fn part_sides(&mut self, terms: &Terms, t: TermId, k: u32) -> Result<(), AllocError>
        requires holds { Holds terms.now self.old }
        requires apart { IsApart terms.now self.old.derivation t k }
        requires node { IsNode self.old.graph.nodes t }
        ensures holds { Holds terms.now self.new }
        ensures grows { Grows self.old self.new }
        ensures told { OnOk result (ties self.new.graph.told
            ≡ ties self.old.graph.told ++ literal_ties terms.now self.old.truth self.old.falsity t Part.False) }
        ensures literals { literals self.new.derivation ≡ literals self.old.derivation }
    {
        terms.law_arena();
        let equal = self.set_apart(terms, t, k)?;
        let denied = self.deny(terms, t, equal)?;
        self.tie_sides(terms, t, denied, false)
    }

    // Tells that one side of an equation is below the other.
    fn tell_order(
        &mut self,
        terms: &Terms,
        t: TermId,
        part: Part,
        why: u32,
    ) -> Result<u32, AllocError>
        requires holds { Holds terms.now self.old }
        requires may { MayTell terms.now self.old t part }
        requires order { IsOrder part }
        ensures holds { Holds terms.now self.new }
        ensures grows { Grows self.old self.new }
        ensures told { OnOk result (ties self.new.graph.told
            ≡ ties self.old.graph.told ++ literal_ties terms.now self.old.truth self.old.falsity t Part.False) }
        ensures fact { IfOk result (λ n. fact_at terms.now self.new.derivation n ≡ Some (literal (tree terms.now t) part)) }
        ensures literals { OnOk result (literals self.new.derivation ≡ literals self.old.derivation ++ record { atom = t; part = part; why = why } ∷ []) }
    {
        let number = self.told(terms, t, part, why)?;
        self.part_sides(terms, t, number)?;
        Ok(number)
    }

    /// Tells a literal: it joins its term with TRUE or with FALSE, and joins or separates the sides of an equation that is no
    /// connective. The answer is the number of the literal as a fact of the derivation. For want of memory some of it may be done.
    pub fn tell(
        &mut self,
        terms: &Terms,
        t: TermId,
        part: Part,
        why: u32,
    ) -> Result<u32, AllocError>
        requires holds { Holds terms.now self.old }
        requires may { MayTell terms.now self.old t part }
        ensures holds { Holds terms.now self.new }
        ensures grows { Grows self.old self.new }
        ensures told { OnOk result (ties self.new.graph.told
            ≡ ties self.old.graph.told ++ literal_ties terms.now self.old.truth self.old.falsity t part) }
        ensures fact { IfOk result (λ n. fact_at terms.now self.new.derivation n ≡ Some (literal (tree terms.now t) part)) }
        ensures literals { OnOk result (literals self.new.derivation ≡ literals self.old.derivation ++ record { atom = t; part = part; why = why } ∷ []) }
    {
        match part {
            Part::True => self.tell_true(terms, t, why),
            Part::False => self.tell_false(terms, t, why),
            Part::Below => self.tell_order(terms, t, Part::Below, why),
            Part::Above => self.tell_order(terms, t, Part::Above, why),
        }
    }

    /// Joins two numbers that are equal by sums, one for each direction. For want of memory the graph stays as it was.
    pub fn join_by_sums(
        &mut self,
        terms: &Terms,
        s: TermId,
        t: TermId,
        first: List<(Frac, u32)>,
        second: List<(Frac, u32)>,
    ) -> Result<(), AllocError>
        requires holds { Holds terms.now self.old }
        requires left { IsNode self.old.graph.nodes s }
        requires right { IsNode self.old.graph.nodes t }
        requires sum { IsSum terms.now self.old.derivation (relation.Equal s t) first second }
        ensures holds { Holds terms.now self.new }
        ensures grows { Grows self.old self.new }
        ensures told { OnOk result (ties self.new.graph.told ≡ ties self.old.graph.told ++ value_tie s t ∷ []) }
        ensures err { OnErr result (self.new.graph ≡ self.old.graph) }
        ensures literals { literals self.new.derivation ≡ literals self.old.derivation }
    {
        let why = sum_entry(&mut self.derivation, s, t, first, second)?;
        let fact = Fact {
            left: s,
            right: t,
            why,
            equal: true,
        };
        self.enter(terms, fact)
    }
}
