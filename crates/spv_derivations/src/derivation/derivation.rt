//! The facts of a path in order.

ghost use Rattle.std.specs.Prelude.{◌≡◌, ◌≤◌, List, [], ◌∷◌, ◌++◌, take, length, Some, true, false, IfOk, OnOk, OnErr};
ghost use Rattle.spv_logic.specs.declared.conditions.TermId.{TermId};
ghost use Rattle.spv_logic.specs.declared.operators.Head.TheVariants as head;
ghost use Rattle.spv_logic.specs.Terms.{Term, term, no_terms};
ghost use Rattle.spv_logic.specs.Formulas.{negation, equation};
ghost use Rattle.spv_logic.specs.Conditions.{Sequent};
ghost use Rattle.spv_term.specs.Arena.{Arena, tree};
ghost use Rattle.spv_atoms.specs.declared.proofs.Step.TheVariants as step;
ghost use Rattle.spv_atoms.specs.declared.proofs.Stated.TheVariants as stated;
ghost use Rattle.spv_proof_rules.specs.Accepted.{Closed, Open, walk};
ghost use Rattle.spv_proof_rules.specs.Stand.{In};
ghost use Rattle.spv_derivations.specs.derivation.Derivation.{Adding, Gains, IsDerivation, PartFits, asked, fact_at, facts, literal};
ghost use Rattle.spv_derivations.specs.derivation.Derived.{IsApart, IsCongruence, IsEvaluation, IsFalseTerm, IsFormula, IsSum, IsTrueTerm, IsTruthClash, relation_of};
ghost use Rattle.spv_derivations.specs.derivation.Literals.{literals};
ghost use Rattle.spv_derivations.specs.derivation.Sides as spec;
ghost use Rattle.spv_derivations.specs.derivation.Steps.{AreTold, IsEnd, closing_steps_of, derived, steps_of};

use crate::derivation::copying::copy_of;
use crate::derivation::entries::{Entry, Part};
use crate::derivation::sides::sides_at;
use spv_atoms::{Relation, Stated, Step};
use spv_frac::Frac;
use spv_logic::list::List;
use spv_term::{TermId, Terms};
use std::alloc::{AllocError, Global};
use std::marker::Model;

/// The facts of a path in order, each told or derived from those before it. A fact has its place, from 1, as its number. What a derivation
/// says is said over an arena: `IsDerivation` holds of an arena and the entries, and stays true where the arena grows.
#[derive(Drop)]
pub struct Derivation {
    entries: Vec<Entry>,
}

impl Model for Derivation {
    ghost use Rattle.std.specs.Prelude.{List};
    ghost use Rattle.spv_derivations.specs.declared.derivation.entries.Entry.{Entry};

    ghost Value = { List Entry };

    ghost view = { λ c. c.entries.items };
}

impl Derivation {
    /// The derivation without facts. It takes no memory.
    pub fn new(alloc: Global) -> Derivation
        ensures { result ≡ [] }
    {
        Derivation {
            entries: Vec::new(alloc),
        }
    }

    /// How many facts there are.
    pub fn len(&self) -> usize
        ensures { result ≡ length self.now }
    {
        self.entries.as_slice().len()
    }

    /// Takes back to the first entries, so many. It takes no memory.
    pub fn keep(&mut self, count: usize)
        requires { count ≤ length self.old }
        ensures { self.new ≡ take count self.old }
    {
        self.entries.truncate(count);
    }

    // Puts an entry at the end, and answers its number. For want of memory, or of a number, the derivation stays as it was.
    fn push(&mut self, entry: Entry) -> Result<u32, AllocError>
        ensures number { IfOk result (λ n. n ≡ length self.new) }
        ensures ok { OnOk result (self.new ≡ self.old ++ entry ∷ []) }
        ensures err { OnErr result (self.new ≡ self.old) }
    {
        let number = self.entries.as_slice().len();
        if number >= u32::MAX as usize {
            return Err(AllocError);
        }
        self.entries.push(entry)?;
        Ok(number as u32 + 1)
    }

    /// A literal is told, whose number outside is `why`.
    pub fn told(&mut self, atom: TermId, part: Part, why: u32) -> Result<u32, AllocError>
        ensures entry { OnOk result (self.new ≡ self.old ++ Entry.Told atom part why ∷ []) }
        ensures gains { IfOk result (λ n. (a : Arena) → IsDerivation a self.old → In a atom → PartFits a atom part
            → Gains a self.old self.new n (literal (tree a atom) part)) }
        ensures err { OnErr result (self.new ≡ self.old) }
    {
        self.push(Entry::Told(atom, part, why))
    }

    /// A step adds a fact.
    pub fn derive(&mut self, step: Step) -> Result<u32, AllocError>
        ensures entry { OnOk result (self.new ≡ self.old ++ Entry.Derived step ∷ []) }
        ensures gains { IfOk result (λ n. (a : Arena) (t : Term) → IsDerivation a self.old → Adding a (facts a self.old) step t
            → Gains a self.old self.new n t) }
        ensures err { OnErr result (self.new ≡ self.old) }
        ensures literals { literals self.new ≡ literals self.old }
    {
        self.push(Entry::Derived(step))
    }

    /// A term equals itself.
    pub fn reflexive(&mut self, t: TermId) -> Result<u32, AllocError>
        ensures entry { OnOk result (self.new ≡ self.old ++ Entry.Derived (step.Refl t) ∷ []) }
        ensures gains { IfOk result (λ n. (a : Arena) → IsDerivation a self.old → In a t
            → Gains a self.old self.new n (equation (tree a t) (tree a t))) }
        ensures err { OnErr result (self.new ≡ self.old) }
        ensures literals { literals self.new ≡ literals self.old }
    {
        self.derive(Step::Refl(t))
    }

    /// An equation with its sides exchanged.
    pub fn symmetric(&mut self, k: u32) -> Result<u32, AllocError>
        ensures entry { OnOk result (self.new ≡ self.old ++ Entry.Derived (step.Symm k) ∷ []) }
        ensures gains { IfOk result (λ n. (a : Arena) (s t : Term) → IsDerivation a self.old → fact_at a self.old k ≡ Some (equation s t)
            → Gains a self.old self.new n (equation t s)) }
        ensures err { OnErr result (self.new ≡ self.old) }
        ensures literals { literals self.new ≡ literals self.old }
    {
        self.derive(Step::Symm(k))
    }

    /// The equation of the outer sides of two equations that share the middle one.
    pub fn transitive(&mut self, j: u32, k: u32) -> Result<u32, AllocError>
        ensures entry { OnOk result (self.new ≡ self.old ++ Entry.Derived (step.Trans j k) ∷ []) }
        ensures gains { IfOk result (λ n. (a : Arena) (s t u : Term) → IsDerivation a self.old
            → fact_at a self.old j ≡ Some (equation s t) → fact_at a self.old k ≡ Some (equation t u)
            → Gains a self.old self.new n (equation s u)) }
        ensures err { OnErr result (self.new ≡ self.old) }
        ensures literals { literals self.new ≡ literals self.old }
    {
        self.derive(Step::Trans(j, k))
    }

    /// Two terms of one head are equal, by the equations of their arguments.
    pub fn congruent(&mut self, t: TermId, u: TermId, ks: List<u32>) -> Result<u32, AllocError>
        ensures entry { OnOk result (self.new ≡ self.old ++ Entry.Derived (step.Cong t u ks) ∷ []) }
        ensures gains { IfOk result (λ n. (a : Arena) → IsDerivation a self.old → IsCongruence a self.old t u ks
            → Gains a self.old self.new n (equation (tree a t) (tree a u))) }
        ensures err { OnErr result (self.new ≡ self.old) }
        ensures literals { literals self.new ≡ literals self.old }
    {
        self.derive(Step::Cong(t, u, ks))
    }

    /// A relation of numbers that multiples of facts show: where it is an equality there are two lists, one for each direction.
    pub fn linear(
        &mut self,
        relation: Relation,
        first: List<(Frac, u32)>,
        second: List<(Frac, u32)>,
    ) -> Result<u32, AllocError>
        ensures entry { OnOk result (self.new ≡ self.old ++ Entry.Derived (step.Linear relation first second) ∷ []) }
        ensures gains { IfOk result (λ n. (a : Arena) → IsDerivation a self.old → IsSum a self.old relation first second
            → Gains a self.old self.new n (relation_of a relation)) }
        ensures err { OnErr result (self.new ≡ self.old) }
        ensures literals { literals self.new ≡ literals self.old }
    {
        self.derive(Step::Linear(relation, first, second))
    }

    /// What follows from facts by the tables of the connectives.
    pub fn evaluated(&mut self, claim: Stated, ks: List<u32>) -> Result<u32, AllocError>
        ensures entry { OnOk result (self.new ≡ self.old ++ Entry.Derived (step.Eval claim ks) ∷ []) }
        ensures gains { IfOk result (λ n. (a : Arena) (t : Term) → IsDerivation a self.old → IsEvaluation a self.old claim ks t
            → Gains a self.old self.new n t) }
        ensures err { OnErr result (self.new ≡ self.old) }
        ensures literals { literals self.new ≡ literals self.old }
    {
        self.derive(Step::Eval(claim, ks))
    }

    // What follows from one fact by the tables of the connectives.
    fn evaluated_by(&mut self, claim: Stated, k: u32) -> Result<u32, AllocError>
        ensures entry { OnOk result (self.new ≡ self.old ++ Entry.Derived (step.Eval claim (k ∷ [])) ∷ []) }
        ensures gains { IfOk result (λ n. (a : Arena) (t : Term) → IsDerivation a self.old → IsEvaluation a self.old claim (k ∷ []) t
            → Gains a self.old self.new n t) }
        ensures err { OnErr result (self.new ≡ self.old) }
        ensures literals { literals self.new ≡ literals self.old }
    {
        let mut ks = List::new(*self.entries.allocator());
        ks.push(k)?;
        self.evaluated(claim, ks)
    }

    /// That a formula which is a fact equals TRUE. `truth` is the term TRUE.
    pub fn equal_to_true(&mut self, p: TermId, truth: TermId, k: u32) -> Result<u32, AllocError>
        ensures entry { OnOk result (self.new ≡ self.old ++ Entry.Derived (step.Eval (stated.Same p truth) (k ∷ [])) ∷ []) }
        ensures gains { IfOk result (λ n. (a : Arena) → IsDerivation a self.old → IsFormula a p → IsTrueTerm a truth
            → fact_at a self.old k ≡ Some (tree a p)
            → Gains a self.old self.new n (equation (tree a p) (term head.True no_terms))) }
        ensures err { OnErr result (self.new ≡ self.old) }
        ensures literals { literals self.new ≡ literals self.old }
    {
        self.evaluated_by(Stated::Same(p, truth), k)
    }

    /// That a formula whose negation is a fact equals FALSE. `falsity` is the term FALSE.
    pub fn equal_to_false(&mut self, p: TermId, falsity: TermId, k: u32) -> Result<u32, AllocError>
        ensures entry { OnOk result (self.new ≡ self.old ++ Entry.Derived (step.Eval (stated.Same p falsity) (k ∷ [])) ∷ []) }
        ensures gains { IfOk result (λ n. (a : Arena) → IsDerivation a self.old → IsFormula a p → IsFalseTerm a falsity
            → fact_at a self.old k ≡ Some (negation (tree a p))
            → Gains a self.old self.new n (equation (tree a p) (term head.False no_terms))) }
        ensures err { OnErr result (self.new ≡ self.old) }
        ensures literals { literals self.new ≡ literals self.old }
    {
        self.evaluated_by(Stated::Same(p, falsity), k)
    }

    /// That an equation of two numbers, of which a fact puts one below the other, equals FALSE. `falsity` is the term FALSE.
    pub fn apart_is_false(&mut self, p: TermId, falsity: TermId, k: u32) -> Result<u32, AllocError>
        ensures entry { OnOk result (self.new ≡ self.old ++ Entry.Derived (step.Eval (stated.Same p falsity) (k ∷ [])) ∷ []) }
        ensures gains { IfOk result (λ n. (a : Arena) → IsDerivation a self.old → IsApart a self.old p k → IsFalseTerm a falsity
            → Gains a self.old self.new n (equation (tree a p) (term head.False no_terms))) }
        ensures err { OnErr result (self.new ≡ self.old) }
        ensures literals { literals self.new ≡ literals self.old }
    {
        self.evaluated_by(Stated::Same(p, falsity), k)
    }

    /// The negation of a formula that by a fact equals FALSE.
    pub fn denied(&mut self, p: TermId, k: u32) -> Result<u32, AllocError>
        ensures entry { OnOk result (self.new ≡ self.old ++ Entry.Derived (step.Eval (stated.Is p false) (k ∷ [])) ∷ []) }
        ensures gains { IfOk result (λ n. (a : Arena) → IsDerivation a self.old → IsFormula a p
            → fact_at a self.old k ≡ Some (equation (tree a p) (term head.False no_terms))
            → Gains a self.old self.new n (negation (tree a p))) }
        ensures err { OnErr result (self.new ≡ self.old) }
        ensures literals { literals self.new ≡ literals self.old }
    {
        self.evaluated_by(Stated::Is(p, false), k)
    }

    /// FALSE, where by a fact TRUE and FALSE are equal. `falsity` is the term FALSE.
    pub fn falsity(&mut self, falsity: TermId, k: u32) -> Result<u32, AllocError>
        ensures entry { OnOk result (self.new ≡ self.old ++ Entry.Derived (step.Eval (stated.Is falsity true) (k ∷ [])) ∷ []) }
        ensures gains { IfOk result (λ n. (a : Arena) → IsDerivation a self.old → IsFalseTerm a falsity → IsTruthClash a self.old k
            → Gains a self.old self.new n (term head.False no_terms)) }
        ensures err { OnErr result (self.new ≡ self.old) }
        ensures literals { literals self.new ≡ literals self.old }
    {
        self.evaluated_by(Stated::Is(falsity, true), k)
    }

    /// The sides of a fact that states an equation by the form of its entry: an equation that was told, that a term equals itself, a
    /// congruence, an equality by sums, or one of truth values.
    pub fn sides(&self, terms: &Terms, k: u32) -> Option<(TermId, TermId)>
        ensures { result ≡ spec.sides_at terms.now self.now k }
    {
        sides_at(terms, self.entries.as_slice(), k)
    }

    /// The derived facts as steps of a path with so many facts, on which what was told has its own numbers. The facts that the steps add
    /// are numbered from `facts` + 1; where a number would be too large the answer is want of memory.
    pub fn steps(&self, alloc: Global, facts: u32) -> Result<Vec<Step>, AllocError>
        ensures exact { IfOk result (λ v. v.items ≡ steps_of facts self.now) }
        ensures adds { IfOk result (λ v. (a : Arena) (c : Sequent) (known : List Term) → length known ≡ facts
            → IsDerivation a self.now → AreTold a known self.now
            → walk (asked a c) known v.items ≡ Open (known ++ derived a self.now)) }
    {
        let done = copy_of(alloc, self.entries.as_slice(), facts)?;
        Ok(done.steps)
    }

    /// The same steps, and the end of the path by one or two facts of the derivation.
    pub fn closing_steps(
        &self,
        alloc: Global,
        facts: u32,
        first: u32,
        second: Option<u32>,
    ) -> Result<Vec<Step>, AllocError>
        ensures exact { IfOk result (λ v. v.items ≡ closing_steps_of facts self.now first second) }
        ensures closes { IfOk result (λ v. (a : Arena) (c : Sequent) (known : List Term) → length known ≡ facts
            → IsDerivation a self.now → AreTold a known self.now → IsEnd a self.now first second
            → walk (asked a c) known v.items ≡ Closed) }
    {
        let done = copy_of(alloc, self.entries.as_slice(), facts)?;
        done.closed(first, second)
    }
}
