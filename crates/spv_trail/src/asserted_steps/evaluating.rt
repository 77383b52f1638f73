// What follows from facts of a path by evaluation.

ghost use Rattle.std.specs.Prelude.{◌≡◌, ◌<◌, [], ◌∷◌, length, List, Some, true, IfOk};
ghost use Rattle.spv_logic.specs.Terms.{Term};
ghost use Rattle.spv_logic.specs.Formulas.{negation};
ghost use Rattle.spv_term.specs.Arena.{tree};
ghost use Rattle.spv_proof_rules.specs.Evaluation.{evaluates};
ghost use Rattle.spv_atoms.specs.declared.proofs.Step.TheVariants as step;
ghost use Rattle.spv_proof_rules.specs.Effects.{Adds, effect, is_truth, numbered};
ghost use Rattle.spv_proof_rules.specs.Stand.{question};
ghost use Rattle.spv_tableau_rules.specs.constraints.Sayings.{literal};
ghost use Rattle.spv_derivations.specs.branches.Paths.{facts_in, IsPath};
ghost use Rattle.spv_derivations.specs.derivation.Derived.{IsFalseTerm};
ghost use Rattle.spv_assignments.specs.partial_assignment.Facts.{AreNumbered, fact_of, facts_of};
ghost use Rattle.spv_decisions.specs.literal_lookup.Orders.{orders};
ghost use Rattle.spv_trail.specs.asserted_steps.Steps.{HasNumber, IsDerived};

use crate::asserted_steps::adding::derive;
use spv_assignments::partial_assignment::{Known, numbers};
use spv_atoms::{Stated, Step};
use spv_derivations::derivation::Derivation;
use spv_logic::list::List;
use spv_term::{Condition, TermId, Terms};
use std::alloc::{AllocError, Global};

// What follows from one fact.
fn evaluate_claim(
    alloc: Global,
    derivation: &mut Derivation,
    terms: &Terms,
    condition: &Condition,
    claim: Stated,
    fact: u32,
) -> Result<u32, AllocError>
    ensures { IfOk result (λ n. (cases : List Term) (f : Term) → IsPath (question terms.now condition.now) cases derivation.old
        → effect (question terms.now condition.now) (facts_in (question terms.now condition.now) derivation.old) (step.Eval claim (fact ∷ [])) ≡ Adds f
        → IsDerived (question terms.now condition.now) cases derivation.old derivation.new n f) }
{
    let mut cites = List::new(alloc);
    cites.push(fact)?;
    derive(derivation, terms, condition, Step::Eval(claim, cites))
}

/// Puts behind the facts of a path that a term is true, or false, which evaluates from one fact.
pub fn evaluate(
    alloc: Global,
    derivation: &mut Derivation,
    terms: &Terms,
    condition: &Condition,
    t: TermId,
    truth: bool,
    fact: u32,
) -> Result<u32, AllocError>
    ensures { IfOk result (λ n. (cases : List Term) (f : Term) → IsPath (question terms.now condition.now) cases derivation.old
        → numbered (facts_in (question terms.now condition.now) derivation.old) fact ≡ Some f
        → is_truth (question terms.now condition.now) (tree terms.now t) ≡ true
        → evaluates (is_truth (question terms.now condition.now)) (f ∷ []) (literal truth (tree terms.now t)) ≡ true
        → IsDerived (question terms.now condition.now) cases derivation.old derivation.new n (literal truth (tree terms.now t))) }
{
    evaluate_claim(
        alloc,
        derivation,
        terms,
        condition,
        Stated::Is(t, truth),
        fact,
    )
}

/// Puts behind the facts of a path that a term is true, or false, which evaluates from all known facts.
pub fn evaluate_all(
    alloc: Global,
    derivation: &mut Derivation,
    terms: &Terms,
    condition: &Condition,
    known: &[Known],
    t: TermId,
    truth: bool,
) -> Result<u32, AllocError>
    ensures { IfOk result (λ n. (cases : List Term) → IsPath (question terms.now condition.now) cases derivation.old
        → AreNumbered terms.now (facts_in (question terms.now condition.now) derivation.old) known.now
        → is_truth (question terms.now condition.now) (tree terms.now t) ≡ true
        → evaluates (is_truth (question terms.now condition.now)) (facts_of terms.now known.now) (literal truth (tree terms.now t)) ≡ true
        → IsDerived (question terms.now condition.now) cases derivation.old derivation.new n (literal truth (tree terms.now t))) }
{
    let cites = numbers(alloc, known)?;
    let step = Step::Eval(Stated::Is(t, truth), List::from_vec(cites));
    derive(derivation, terms, condition, step)
}

/// Puts behind the facts of a path that an equation is false of which a fact puts the sides in order: it equals FALSE, and so its negation
/// follows. `falsity` is the term FALSE.
pub fn deny(
    alloc: Global,
    derivation: &mut Derivation,
    terms: &Terms,
    condition: &Condition,
    equation: TermId,
    order: Known,
    falsity: TermId,
) -> Result<u32, AllocError>
    ensures { IfOk result (λ n. (cases : List Term) → IsPath (question terms.now condition.now) cases derivation.old
        → IsFalseTerm terms.now falsity
        → is_truth (question terms.now condition.now) (tree terms.now equation) ≡ true
        → orders terms.now equation order ≡ true
        → numbered (facts_in (question terms.now condition.now) derivation.old) order.fact ≡ Some (fact_of terms.now order)
        → HasNumber (question terms.now condition.now) cases derivation.old derivation.new n (negation (tree terms.now equation))) }
{
    let claim = Stated::Same(equation, falsity);
    let equal = evaluate_claim(alloc, derivation, terms, condition, claim, order.fact)?;
    let claim = Stated::Is(equation, false);
    evaluate_claim(alloc, derivation, terms, condition, claim, equal)
}
