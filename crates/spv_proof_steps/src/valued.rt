//! The step that evaluates: the values that are given, and what is computed from them.

ghost use Rattle.std.specs.Prelude.{◌≡◌, ◌<◌, ◌++◌, List, Bool, map, length, true, false, Some, IsTrue, OnOk, IfOk};
ghost use Rattle.std.specs.List.{flat_map, list_any};
ghost use Rattle.spv_logic.specs.declared.conditions.TermId.{TermId};
ghost use Rattle.spv_logic.specs.declared.operators.Head.TheVariants.{Eq};
ghost use Rattle.spv_logic.specs.Terms.{Term};
ghost use Rattle.spv_term.specs.Arena.{AllBelow, tree, IsArena};
ghost use Rattle.spv_atoms.specs.Tables as tables;
ghost use Rattle.spv_atoms.specs.Valued.{AreGiven, AreValued, AllValued, IsInside};
ghost use Rattle.spv_proof_rules.specs.Evaluation as spec;
ghost use Rattle.spv_proof_steps.specs.declared.candidates.Candidate.TheVariants.{Equation};
ghost use Rattle.spv_proof_steps.specs.Candidates.{formula_of, IsBool, MayStand};
ghost use Rattle.spv_proof_steps.specs.Given.{IsKnown, GivesOrders};
ghost use Rattle.spv_proof_steps.specs.Valued.{truth_in, given_in, computed_in, clash_in, AllInside};

use crate::candidates::{Candidate, is_term, negated, negated_by, same, sides};
use crate::known::{GivenOrders, Known, known_by};
use spv_atoms::{TermSet, computed, computed_over, connected, values_in_order};
use spv_term::{Head, Sort, TermId, Terms};
use std::alloc::{AllocError, Global};

// The value that the truth of one formula gives to another.
fn given_by(terms: &Terms, value: bool, formula: Candidate, t: Candidate) -> Option<bool>
    requires formula { MayStand terms.now formula }
    requires t { MayStand terms.now t }
    ensures { result
        ≡ tables.assigned (spec.given_by value (formula_of terms.now formula)) (formula_of terms.now t) }
{
    if same(terms, formula, t) {
        return Some(value);
    }
    match negated_by(terms, formula) {
        Some(u) => given_by_negation(terms, value, u, t),
        None => None,
    }
}

// The value that the truth of a term's negation gives to a formula.
fn given_by_negation(terms: &Terms, value: bool, u: TermId, t: Candidate) -> Option<bool>
    requires u { u.0 < length terms.now.nodes }
    requires t { MayStand terms.now t }
    ensures { result
        ≡ tables.assigned (spec.given_negated value (Some (tree terms.now u))) (formula_of terms.now t) }
{
    if is_term(terms, t, u) {
        Some(!value)
    } else {
        None
    }
}

// The value that true facts give to a formula: of two the first.
fn given_by_facts(terms: &Terms, cited: &[TermId], t: Candidate) -> Option<bool>
    requires cited { AllBelow (length terms.now.nodes) cited.now }
    requires t { MayStand terms.now t }
    ensures { result
        ≡ tables.assigned (flat_map (spec.given_by true) (map (tree terms.now) cited.now)) (formula_of terms.now t) }
{
    for fact in cited {
        if let Some(value) = given_by(terms, true, Candidate::Known(*fact), t) {
            return Some(value);
        }
    }
    None
}

// That an equation is false, where one of its sides is known to be below the other.
fn apart(terms: &Terms, orders: &GivenOrders, t: TermId) -> Option<bool>
    requires { t.0 < length terms.now.nodes }
    ensures { (cited : List TermId) → GivesOrders terms.now cited orders.now
        → result ≡ spec.apart (map (tree terms.now) cited) (spec.sides (tree terms.now t)) }
{
    match sides(terms, t) {
        Some((left, right)) => {
            if orders.has(left, right) || orders.has(right, left) {
                Some(false)
            } else {
                None
            }
        }
        None => None,
    }
}

// The value that is given to a term, where what is known is true and the stated formula is false.
fn given(terms: &Terms, known: &Known, formula: Candidate, t: TermId) -> Option<bool>
    requires formula { MayStand terms.now formula }
    requires t { t.0 < length terms.now.nodes }
    ensures { (cited : List TermId) → IsKnown terms.now cited known.now
        → result ≡ given_in terms.now cited formula (tree terms.now t) }
{
    if let Some(value) = known.values.value(t) {
        return Some(value);
    }
    if let Some(value) = given_by(terms, false, formula, Candidate::Known(t)) {
        return Some(value);
    }
    apart(terms, &known.orders, t)
}

// The value that is given to a stated equation itself.
fn given_to_equation(terms: &Terms, cited: &[TermId], s: TermId, t: TermId) -> Option<bool>
    requires cited { AllBelow (length terms.now.nodes) cited.now }
    requires equation { MayStand terms.now (Equation s t) }
    ensures { result ≡ given_in terms.now cited.now (Equation s t) (formula_of terms.now (Equation s t)) }
{
    match given_by_facts(terms, cited, Candidate::Equation(s, t)) {
        Some(value) => Some(value),
        None => Some(false),
    }
}

/// Whether a term is of sort Bool.
pub fn is_truth(terms: &Terms, t: TermId) -> bool
    requires { t.0 < length terms.now.nodes }
    ensures value { result ≡ truth_in terms.now (tree terms.now t) }
    ensures sort { IsTrue result → IsBool terms.now t }
{
    terms.law_arena();
    match terms.sort(t) {
        Sort::Bool => true,
        _ => false,
    }
}

// What is given to each of these terms.
fn all_given(
    alloc: Global,
    terms: &Terms,
    known: &Known,
    formula: Candidate,
    ids: &[TermId],
) -> Result<Vec<Option<bool>>, AllocError>
    requires formula { MayStand terms.now formula }
    requires ids { AllBelow (length terms.now.nodes) ids.now }
    ensures length { IfOk result (λ own. length own.items ≡ length ids.now) }
    ensures values { IfOk result (λ own. (cited : List TermId) → IsKnown terms.now cited known.now
        → AreGiven terms.now (given_in terms.now cited formula) ids.now own.items) }
{
    let mut own = Vec::new(alloc);
    for t in ids {
        own.push(given(terms, known, formula, *t))?;
    }
    Ok(own)
}

// Terms in order with their values.
#[derive(Drop)]
struct TermValues {
    order: TermSet,
    found: Vec<Option<bool>>,
}

// The values of these terms and of those that they are gone through to through connectives.
fn valued_terms(
    alloc: Global,
    terms: &Terms,
    known: &Known,
    formula: Candidate,
    roots: &[TermId],
) -> Result<TermValues, AllocError>
    requires formula { MayStand terms.now formula }
    requires roots { AllBelow (length terms.now.nodes) roots.now }
    ensures values { IfOk result (λ v. (cited : List TermId) → IsKnown terms.now cited known.now
        → AreValued terms.now (given_in terms.now cited formula) v.order v.found.items) }
    ensures roots { IfOk result (λ v. AllValued v.order v.found.items roots.now) }
    ensures inside { IfOk result (λ v. AllInside terms.now v.order v.found.items roots.now) }
{
    let order = connected(alloc, terms, roots)?;
    let own = all_given(alloc, terms, known, formula, order.as_slice())?;
    let found = values_in_order(alloc, terms, &order, own.as_slice())?;
    Ok(TermValues { order, found })
}

// Whether a term is computed as true where it is given as false, or the other way round.
fn clashes(terms: &Terms, known: &Known, formula: Candidate, valued: &TermValues, t: TermId) -> bool
    requires formula { MayStand terms.now formula }
    requires t { t.0 < length terms.now.nodes }
    requires inside { IsInside terms.now valued.now.order valued.now.found.items t }
    ensures { (cited : List TermId) → IsKnown terms.now cited known.now
        → AreValued terms.now (given_in terms.now cited formula) valued.now.order valued.now.found.items
        → result ≡ clash_in terms.now cited formula (tree terms.now t) }
{
    opposite(
        computed(terms, &valued.order, valued.found.as_slice(), t),
        given(terms, known, formula, t),
    )
}

// Whether one of these terms clashes.
fn any_clashes(
    terms: &Terms,
    known: &Known,
    formula: Candidate,
    valued: &TermValues,
    ts: &[TermId],
) -> bool
    requires formula { MayStand terms.now formula }
    requires ts { AllBelow (length terms.now.nodes) ts.now }
    requires inside { AllInside terms.now valued.now.order valued.now.found.items ts.now }
    ensures { (cited : List TermId) → IsKnown terms.now cited known.now
        → AreValued terms.now (given_in terms.now cited formula) valued.now.order valued.now.found.items
        → result ≡ list_any (clash_in terms.now cited formula) (map (tree terms.now) ts.now) }
{
    for t in ts {
        if clashes(terms, known, formula, valued, *t) {
            return true;
        }
    }
    false
}

// A term without its outer negation.
fn bare(terms: &Terms, t: TermId) -> TermId
    requires { t.0 < length terms.now.nodes }
    ensures value { tree terms.now result ≡ spec.bare (tree terms.now t) }
    ensures in_range { result.0 < length terms.now.nodes }
{
    match negated(terms, t) {
        Some(u) => u,
        None => t,
    }
}

// Puts facts without their outer negations behind other terms.
fn push_bare(terms: &Terms, facts: &[TermId], out: &mut Vec<TermId>) -> Result<(), AllocError>
    requires facts { AllBelow (length terms.now.nodes) facts.now }
    requires out { AllBelow (length terms.now.nodes) out.old.items }
    ensures terms { OnOk result
        (map (tree terms.now) out.new.items ≡ map (tree terms.now) out.old.items ++ map spec.bare (map (tree terms.now) facts.now)) }
    ensures in_range { OnOk result (AllBelow (length terms.now.nodes) out.new.items) }
{
    for fact in facts {
        out.push(bare(terms, *fact))?;
    }
    Ok(())
}

// Whether a formula follows, where this is it without its outer negation.
fn evaluates_term(
    alloc: Global,
    terms: &Terms,
    cited: &[TermId],
    formula: Candidate,
    inner: TermId,
) -> Result<bool, AllocError>
    requires cited { AllBelow (length terms.now.nodes) cited.now }
    requires formula { MayStand terms.now formula }
    requires inner { inner.0 < length terms.now.nodes }
    requires is { tree terms.now inner ≡ spec.bare (formula_of terms.now formula) }
    ensures { IfOk result (λ b. b
        ≡ spec.evaluates (truth_in terms.now) (map (tree terms.now) cited.now) (formula_of terms.now formula)) }
{
    let known = known_by(alloc, terms, cited)?;
    let mut roots = Vec::new(alloc);
    roots.push(inner)?;
    push_bare(terms, cited, &mut roots)?;
    let valued = valued_terms(alloc, terms, &known, formula, roots.as_slice())?;
    Ok(any_clashes(terms, &known, formula, &valued, roots.as_slice()))
}

// Whether the equation of two terms follows.
fn evaluates_equation(
    alloc: Global,
    terms: &Terms,
    cited: &[TermId],
    s: TermId,
    t: TermId,
) -> Result<bool, AllocError>
    requires cited { AllBelow (length terms.now.nodes) cited.now }
    requires equation { MayStand terms.now (Equation s t) }
    ensures { IfOk result (λ b. b
        ≡ spec.evaluates (truth_in terms.now) (map (tree terms.now) cited.now) (formula_of terms.now (Equation s t))) }
{
    terms.law_arena();
    let formula = Candidate::Equation(s, t);
    let known = known_by(alloc, terms, cited)?;
    let mut roots = Vec::from_slice(alloc, &[s, t])?;
    push_bare(terms, cited, &mut roots)?;
    let valued = valued_terms(alloc, terms, &known, formula, roots.as_slice())?;
    let own = computed_over(
        terms,
        &valued.order,
        valued.found.as_slice(),
        Head::Eq,
        &[s, t],
    );
    if opposite(own, given_to_equation(terms, cited, s, t)) {
        return Ok(true);
    }
    Ok(any_clashes(terms, &known, formula, &valued, &roots.as_slice()[2..]))
}

/// Whether a formula follows from cited facts by the tables of the connectives: were it false, one of
/// them or it itself would have two values. It looks at each different subterm once.
pub(crate) fn evaluates(
    alloc: Global,
    terms: &Terms,
    cited: &[TermId],
    formula: Candidate,
) -> Result<bool, AllocError>
    requires cited { AllBelow (length terms.now.nodes) cited.now }
    requires formula { MayStand terms.now formula }
    ensures { IfOk result (λ b. b
        ≡ spec.evaluates (truth_in terms.now) (map (tree terms.now) cited.now) (formula_of terms.now formula)) }
{
    match formula {
        Candidate::Known(t) => evaluates_term(alloc, terms, cited, formula, bare(terms, t)),
        Candidate::Negation(t) => evaluates_term(alloc, terms, cited, formula, t),
        Candidate::Equation(s, t) => evaluates_equation(alloc, terms, cited, s, t),
    }
}

// Whether two values are known and differ.
fn opposite(a: Option<bool>, b: Option<bool>) -> bool
    ensures { result ≡ spec.opposite a b }
{
    match a {
        Some(true) => matches!(b, Some(false)),
        Some(false) => matches!(b, Some(true)),
        None => false,
    }
}
