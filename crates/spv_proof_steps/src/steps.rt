//! What each step does, over the ids of an arena.

ghost use Rattle.std.specs.Prelude.{◌≡◌, ◌<◌, ℕ, map, length, true, Some, IfOk};
ghost use Rattle.std.specs.Option.{option_map, ForSome};
ghost use Rattle.spv_logic.specs.declared.conditions.TermId.{TermId};
ghost use Rattle.spv_logic.specs.declared.operators.Head.TheVariants as head;
ghost use Rattle.spv_logic.specs.Terms.{Term, term, no_terms, term_eq};
ghost use Rattle.spv_term.specs.Arena.{AllBelow, tree, sort_at, sequent};
ghost use Rattle.spv_logic.specs.Formulas as formulas;
ghost use Rattle.spv_logic.specs.Conditions.{Sequent};
ghost use Rattle.spv_atoms.specs.Tables as tables;
ghost use Rattle.spv_proof_rules.specs.Sums as sums;
ghost use Rattle.spv_proof_rules.specs.Stand.{StatedIn};
ghost use Rattle.spv_proof_rules.specs.Effects as spec;
ghost use Rattle.spv_proof_steps.specs.Candidates.{formula_of, pair_of, MayStand, PairIn, IsBool, AllFormulas};
ghost use Rattle.spv_proof_steps.specs.Valued.{truth_in};
ghost use Rattle.spv_proof_steps.specs.Steps.{effect_of, MayAdd, asked};

use crate::candidates::{Candidate, negated, same_term, sides};
use crate::facts::{Effect, Fact, stated_fact};
use crate::valued::{evaluates, is_truth};
use spv_atoms::{Stated, numeral_relation};
use spv_term::{Condition, Head, TermId, Terms};
use std::alloc::{AllocError, Global};

/// The fact of a number, from 1.
pub fn fact(facts: &[TermId], number: u32) -> Option<TermId>
    ensures value { (at : TermId → Term) → option_map at result ≡ spec.numbered (map at facts.now) number }
    ensures in_range { (count : ℕ) → AllBelow count facts.now → ForSome result (λ t. t.0 < count) }
{
    if number == 0 {
        return None;
    }
    facts.get(number as usize - 1).copied()
}

// The cited facts, where each is there.
fn cited(
    alloc: Global,
    facts: &[TermId],
    numbers: &[u32],
) -> Result<Option<Vec<TermId>>, AllocError>
    ensures value { IfOk result
        (λ o. (at : TermId → Term) → option_map (λ v. map at v.items) o ≡ spec.cited (map at facts.now) numbers.now) }
    ensures in_range { IfOk result
        (λ o. (count : ℕ) → AllBelow count facts.now → ForSome o (λ v. AllBelow count v.items)) }
{
    let mut list = Vec::new(alloc);
    for number in numbers {
        match fact(facts, *number) {
            Some(t) => list.push(t)?,
            None => return Ok(None),
        }
    }
    Ok(Some(list))
}

/// A hypothesis, or for 0 that the goal is false.
pub fn given_effect(terms: &Terms, condition: &Condition, number: u32) -> Effect
    requires given { AllFormulas terms.now condition.now.given }
    requires goal_in { condition.now.goal.0 < length terms.now.nodes }
    requires goal_sort { IsBool terms.now condition.now.goal }
    ensures value { effect_of terms.now result ≡ spec.given_effect (sequent terms.now condition.now) number }
    ensures may { MayAdd terms.now result }
{
    if number == 0 {
        return Effect::Adds(Fact::Negation(condition.goal));
    }
    match fact(condition.given.as_slice(), number) {
        Some(t) => Effect::Adds(Fact::Known(t)),
        None => Effect::Fails,
    }
}

// The sides of a fact that is an equation.
fn fact_sides(terms: &Terms, facts: &[TermId], number: u32) -> Option<(TermId, TermId)>
    requires { AllBelow (length terms.now.nodes) facts.now }
    ensures value { option_map (pair_of terms.now) result
        ≡ spec.sides_of (spec.numbered (map (tree terms.now) facts.now) number) }
    ensures in_range { ForSome result (PairIn terms.now) }
    ensures sorted { ForSome result (λ p. sort_at terms.now p.0 ≡ sort_at terms.now p.1) }
{
    match fact(facts, number) {
        Some(t) => sides(terms, t),
        None => None,
    }
}

/// An equation with its sides exchanged.
pub fn exchanged(terms: &Terms, facts: &[TermId], number: u32) -> Effect
    requires { AllBelow (length terms.now.nodes) facts.now }
    ensures value { effect_of terms.now result
        ≡ spec.exchanged (spec.sides_of (spec.numbered (map (tree terms.now) facts.now) number)) }
    ensures may { MayAdd terms.now result }
{
    match fact_sides(terms, facts, number) {
        Some((s, t)) => Effect::Adds(Fact::Equation(t, s)),
        None => Effect::Fails,
    }
}

// The equation of the outer sides of two equations that share a middle term.
fn joined_pairs(terms: &Terms, left: (TermId, TermId), right: (TermId, TermId)) -> Effect
    requires left { PairIn terms.now left }
    requires right { PairIn terms.now right }
    requires left_sort { sort_at terms.now left.0 ≡ sort_at terms.now left.1 }
    requires right_sort { sort_at terms.now right.0 ≡ sort_at terms.now right.1 }
    ensures value { effect_of terms.now result
        ≡ spec.joined (Some (pair_of terms.now left)) (Some (pair_of terms.now right)) }
    ensures may { MayAdd terms.now result }
{
    if same_term(terms, left.1, right.0) {
        Effect::Adds(Fact::Equation(left.0, right.1))
    } else {
        Effect::Fails
    }
}

/// Two facts that are equations with a shared middle term.
pub fn joined(terms: &Terms, facts: &[TermId], first: u32, second: u32) -> Effect
    requires { AllBelow (length terms.now.nodes) facts.now }
    ensures value { effect_of terms.now result
        ≡ spec.joined (spec.sides_of (spec.numbered (map (tree terms.now) facts.now) first))
        (spec.sides_of (spec.numbered (map (tree terms.now) facts.now) second)) }
    ensures may { MayAdd terms.now result }
{
    match fact_sides(terms, facts, first) {
        Some(left) => match fact_sides(terms, facts, second) {
            Some(right) => joined_pairs(terms, left, right),
            None => Effect::Fails,
        },
        None => Effect::Fails,
    }
}

// The formula that an evaluation states, where the terms in it are of sort Bool.
fn stated(terms: &Terms, stated: Stated) -> Option<Candidate>
    requires { StatedIn terms.now stated }
    ensures value { (c : Sequent) → option_map (formula_of terms.now) result ≡ spec.stated (asked terms.now c) stated }
    ensures may { ForSome result (MayStand terms.now) }
{
    match stated {
        Stated::Is(t, value) => stated_value(terms, t, value),
        Stated::Same(s, t) => {
            if is_truth(terms, s) && is_truth(terms, t) {
                Some(Candidate::Equation(s, t))
            } else {
                None
            }
        }
    }
}

// That a term of sort Bool has this truth value.
fn stated_value(terms: &Terms, t: TermId, value: bool) -> Option<Candidate>
    requires { t.0 < length terms.now.nodes }
    ensures value { (c : Sequent) → option_map (formula_of terms.now) result
        ≡ spec.stated (asked terms.now c) (Stated.Is t value) }
    ensures may { ForSome result (MayStand terms.now) }
{
    if !is_truth(terms, t) {
        return None;
    }
    if value {
        Some(Candidate::Known(t))
    } else {
        Some(Candidate::Negation(t))
    }
}

/// What follows from the cited facts by the tables of the connectives.
pub fn evaluated(
    alloc: Global,
    terms: &Terms,
    facts: &[TermId],
    claim: Stated,
    numbers: &[u32],
) -> Result<Effect, AllocError>
    requires claim { StatedIn terms.now claim }
    requires facts { AllBelow (length terms.now.nodes) facts.now }
    ensures value { IfOk result (λ e. (c : Sequent) → effect_of terms.now e
        ≡ spec.evaluated (truth_in terms.now) (spec.stated (asked terms.now c) claim)
        (spec.cited (map (tree terms.now) facts.now) numbers.now)) }
    ensures may { IfOk result (MayAdd terms.now) }
{
    let Some(formula) = stated(terms, claim) else {
        return Ok(Effect::Fails);
    };
    let Some(list) = cited(alloc, facts, numbers)? else {
        return Ok(Effect::Fails);
    };
    if evaluates(alloc, terms, list.as_slice(), formula)? {
        Ok(Effect::Adds(stated_fact(formula)))
    } else {
        Ok(Effect::Fails)
    }
}

// Whether a term is the negation of another.
fn negates(terms: &Terms, s: TermId, t: TermId) -> bool
    requires s { s.0 < length terms.now.nodes }
    requires t { t.0 < length terms.now.nodes }
    ensures { result ≡ spec.is_negation_of (sums.negated (tree terms.now s)) (tree terms.now t) }
{
    match negated(terms, s) {
        Some(u) => same_term(terms, u, t),
        None => false,
    }
}

// Whether one of two terms is the negation of the other.
fn contrary(terms: &Terms, s: TermId, t: TermId) -> bool
    requires s { s.0 < length terms.now.nodes }
    requires t { t.0 < length terms.now.nodes }
    ensures { result ≡ spec.contrary (tree terms.now s) (tree terms.now t) }
{
    negates(terms, s, t) || negates(terms, t, s)
}

// Whether a term is FALSE.
fn is_false(terms: &Terms, t: TermId) -> bool
    requires { t.0 < length terms.now.nodes }
    ensures { result ≡ term_eq (tree terms.now t) (term head.False no_terms) }
{
    terms.law_arena();
    match terms.node(t).head {
        Head::False => true,
        _ => false,
    }
}

// Whether a term is TRUE.
fn is_true(terms: &Terms, t: TermId) -> bool
    requires { t.0 < length terms.now.nodes }
    ensures { result ≡ term_eq (tree terms.now t) (term head.True no_terms) }
{
    terms.law_arena();
    match terms.node(t).head {
        Head::True => true,
        _ => false,
    }
}

// Whether a term is the negation of TRUE.
fn is_not_true(terms: &Terms, t: TermId) -> bool
    requires { t.0 < length terms.now.nodes }
    ensures { result ≡ term_eq (tree terms.now t) (formulas.negation (term head.True no_terms)) }
{
    match negated(terms, t) {
        Some(u) => is_true(terms, u),
        None => false,
    }
}

// Whether a term compares two numerals and does not hold.
fn is_false_relation(terms: &Terms, t: TermId) -> bool
    requires { t.0 < length terms.now.nodes }
    ensures { result ≡ spec.is_false (tables.numeral_relation (tree terms.now t)) }
{
    match numeral_relation(terms, t) {
        Some(value) => !value,
        None => false,
    }
}

// Whether a term is never true.
fn impossible(terms: &Terms, t: TermId) -> bool
    requires { t.0 < length terms.now.nodes }
    ensures { result ≡ spec.impossible (tree terms.now t) }
{
    is_false(terms, t) || is_not_true(terms, t) || is_false_relation(terms, t)
}

// The end of a path by one fact that is never true.
fn end_of_one(terms: &Terms, facts: &[TermId], number: u32) -> bool
    requires { AllBelow (length terms.now.nodes) facts.now }
    ensures { spec.ends_if result ≡ spec.end_of_one (spec.numbered (map (tree terms.now) facts.now) number) }
{
    match fact(facts, number) {
        Some(t) => impossible(terms, t),
        None => false,
    }
}

// The end of a path by two facts, one of which is the negation of the other.
fn end_of_two(terms: &Terms, facts: &[TermId], first: u32, second: u32) -> bool
    requires { AllBelow (length terms.now.nodes) facts.now }
    ensures { spec.ends_if result
        ≡ spec.end_of_two (spec.numbered (map (tree terms.now) facts.now) first)
        (spec.numbered (map (tree terms.now) facts.now) second) }
{
    match fact(facts, first) {
        Some(s) => match fact(facts, second) {
            Some(t) => contrary(terms, s, t),
            None => false,
        },
        None => false,
    }
}

/// The end of a path.
pub fn end_of(terms: &Terms, facts: &[TermId], first: u32, second: Option<u32>) -> Effect
    requires { AllBelow (length terms.now.nodes) facts.now }
    ensures value { effect_of terms.now result
        ≡ spec.end_of (map (tree terms.now) facts.now) (spec.numbered (map (tree terms.now) facts.now) first) second }
    ensures may { MayAdd terms.now result }
{
    let ends = match second {
        Some(number) => end_of_two(terms, facts, first, number),
        None => end_of_one(terms, facts, first),
    };
    if ends { Effect::Ends } else { Effect::Fails }
}
