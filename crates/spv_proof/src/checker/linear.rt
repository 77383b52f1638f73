//! Relations that sums of multiples of facts show.

ghost use Rattle.std.specs.Prelude.{◌≡◌, ◌<◌, map, length, None, IfOk, OnOk, IfErr};
ghost use Rattle.spv_logic.specs.Conditions.{Sequent};
ghost use Rattle.spv_term.specs.Arena.{Extends, AllBelow, IsArena, tree, trees_of};
ghost use Rattle.spv_atoms.specs.declared.proofs.Relation.TheVariants as shown;
ghost use Rattle.spv_proof_rules.specs.Effects as spec;
ghost use Rattle.spv_proof_rules.specs.Outcomes.{Does, does_unless, halt_of_sums};
ghost use Rattle.spv_proof_rules.specs.Stand.{RelationIn};
ghost use Rattle.spv_proof_steps.specs.Steps.{fact_of, FactStands, effect_of, MayAdd, asked};
ghost use Rattle.spv_proof.specs.sums.Readings.{ClaimIn};
ghost use Rattle.spv_proof.specs.sums.Added.{fault_halt, FaultIn, halt_of_claim, is_shown};
ghost use Rattle.spv_proof.specs.checker.Ends.{IsTrialStop};
ghost use Rattle.spv_proof.specs.checker.Shown.{linear_trial, IsSumStop};

use crate::checker::casing::are_numbers;
use crate::checker::keeping::make;
use crate::checker::stops::CheckStop;
use crate::sums::{Claim, SumFault, refutes};
use spv_atoms::Relation;
use spv_frac::Frac;
use spv_proof_steps::{Effect, Fact};
use spv_term::{TermId, Terms};
use std::alloc::Global;

// How the check ends with a fault of a sum. Where the form of what is to be shown does not fit, this is
// put into the arena, so that it can be named.
fn stop_of(terms: &mut Terms, relation: Fact, fault: SumFault) -> CheckStop
    requires relation { FactStands terms.old relation }
    requires fault { FaultIn terms.old fault }
    ensures stop { IsSumStop terms.old terms.new result (fault_halt terms.old terms.old.most (fact_of terms.old relation) fault) }
    ensures grows { Extends terms.old terms.new }
{
    match fault {
        SumFault::Wide(op, left, right) => CheckStop::Wide(op, left, right),
        SumFault::Form(t) => CheckStop::Form(t),
        SumFault::Shown => match make(terms, relation) {
            Ok(t) => CheckStop::Form(t),
            Err(fault) => CheckStop::from(fault),
        },
        SumFault::Memory => CheckStop::Memory,
    }
}

// Whether multiples of facts show a claim, in a step that adds a relation.
fn shows(
    alloc: Global,
    terms: &mut Terms,
    facts: &[TermId],
    relation: Fact,
    claim: Claim,
    multiples: &[(Frac, u32)],
) -> Result<bool, CheckStop>
    requires facts { AllBelow (length terms.old.nodes) facts.now }
    requires relation { FactStands terms.old relation }
    requires claim { ClaimIn terms.old claim }
    ensures value { IfOk result (λ b. b ≡ is_shown terms.old facts.now claim multiples.now) }
    ensures unstopped { OnOk result
        (halt_of_claim terms.old facts.now claim multiples.now terms.old.most (fact_of terms.old relation) ≡ None) }
    ensures same { OnOk result (terms.new ≡ terms.old) }
    ensures stop { IfErr result (λ e. IsSumStop terms.old terms.new e
        (halt_of_claim terms.old facts.now claim multiples.now terms.old.most (fact_of terms.old relation))) }
    ensures grows { Extends terms.old terms.new }
{
    match refutes(alloc, terms, facts, claim, multiples) {
        Ok(shown) => Ok(shown),
        Err(fault) => Err(stop_of(terms, relation, fault)),
    }
}

// That one number is at most another, where multiples of the cited facts show it.
fn at_most(
    alloc: Global,
    terms: &mut Terms,
    facts: &[TermId],
    claim: Claim,
    first: &[(Frac, u32)],
    second: &[(Frac, u32)],
) -> Result<Effect, CheckStop>
    requires facts { AllBelow (length terms.old.nodes) facts.now }
    requires claim { ClaimIn terms.old claim }
    ensures value { IfOk result (λ e. (c : Sequent)
        → linear_trial terms.old c facts.now (shown.AtMost claim.left claim.right) first.now second.now ≡ Does (effect_of terms.old e)) }
    ensures may { IfOk result (MayAdd terms.old) }
    ensures same { OnOk result (terms.new ≡ terms.old) }
    ensures stop { IfErr result (λ e. (c : Sequent) → IsTrialStop terms.old terms.new e
        (linear_trial terms.old c facts.now (shown.AtMost claim.left claim.right) first.now second.now)) }
    ensures grows { Extends terms.old terms.new }
{
    if !are_numbers(terms, claim.left, claim.right) {
        return Ok(Effect::Fails);
    }
    if !second.is_empty() {
        return Ok(Effect::Fails);
    }
    let relation = Fact::AtMost(claim.left, claim.right);
    if shows(alloc, terms, facts, relation, claim, first)? {
        Ok(Effect::Adds(relation))
    } else {
        Ok(Effect::Fails)
    }
}

// That two numbers are equal, where multiples of the cited facts show each to be at most the other.
fn equal(
    alloc: Global,
    terms: &mut Terms,
    facts: &[TermId],
    claim: Claim,
    first: &[(Frac, u32)],
    second: &[(Frac, u32)],
) -> Result<Effect, CheckStop>
    requires facts { AllBelow (length terms.old.nodes) facts.now }
    requires claim { ClaimIn terms.old claim }
    ensures value { IfOk result (λ e. (c : Sequent)
        → linear_trial terms.old c facts.now (shown.Equal claim.left claim.right) first.now second.now ≡ Does (effect_of terms.old e)) }
    ensures may { IfOk result (MayAdd terms.old) }
    ensures same { OnOk result (terms.new ≡ terms.old) }
    ensures stop { IfErr result (λ e. (c : Sequent) → IsTrialStop terms.old terms.new e
        (linear_trial terms.old c facts.now (shown.Equal claim.left claim.right) first.now second.now)) }
    ensures grows { Extends terms.old terms.new }
{
    if !are_numbers(terms, claim.left, claim.right) {
        return Ok(Effect::Fails);
    }
    let relation = Fact::Equation(claim.left, claim.right);
    if !shows(alloc, terms, facts, relation, claim, first)? {
        return Ok(Effect::Fails);
    }
    let back = Claim {
        left: claim.right,
        right: claim.left,
    };
    if shows(alloc, terms, facts, relation, back, second)? {
        Ok(Effect::Adds(relation))
    } else {
        Ok(Effect::Fails)
    }
}

// A relation of whole numbers, where multiples of the cited facts show it.
pub(crate) fn linear(
    alloc: Global,
    terms: &mut Terms,
    facts: &[TermId],
    relation: Relation,
    first: &[(Frac, u32)],
    second: &[(Frac, u32)],
) -> Result<Effect, CheckStop>
    requires facts { AllBelow (length terms.old.nodes) facts.now }
    requires relation { RelationIn terms.old relation }
    ensures value { IfOk result (λ e. (c : Sequent) →
        does_unless (halt_of_sums terms.old.most (asked terms.old c) (trees_of terms.old.nodes) (map (tree terms.old) facts.now)
        relation first.now second.now)
        (spec.linear (asked terms.old c) (map (tree terms.old) facts.now) relation first.now second.now) ≡ Does (effect_of terms.old e)) }
    ensures may { IfOk result (MayAdd terms.old) }
    ensures same { OnOk result (terms.new ≡ terms.old) }
    ensures stop { IfErr result (λ e. (c : Sequent) → IsTrialStop terms.old terms.new e
        (does_unless (halt_of_sums terms.old.most (asked terms.old c) (trees_of terms.old.nodes) (map (tree terms.old) facts.now)
        relation first.now second.now)
        (spec.linear (asked terms.old c) (map (tree terms.old) facts.now) relation first.now second.now))) }
    ensures grows { Extends terms.old terms.new }
{
    match relation {
        Relation::AtMost(left, right) => {
            at_most(alloc, terms, facts, Claim { left, right }, first, second)
        }
        Relation::Equal(left, right) => {
            equal(alloc, terms, facts, Claim { left, right }, first, second)
        }
    }
}
