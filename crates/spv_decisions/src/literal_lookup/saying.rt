// Facts that say that a term is true, or false.

ghost use Rattle.std.specs.Prelude.{◌≡◌, ◌<◌, false, None, length, IfNone, IfSome};
ghost use Rattle.spv_logic.specs.Terms.{term_eq};
ghost use Rattle.spv_logic.specs.Formulas.{negation};
ghost use Rattle.spv_term.specs.Arena.{tree};
ghost use Rattle.spv_proof_rules.specs.Sums as sums;
ghost use Rattle.spv_proof_rules.specs.Evaluation.{cites};
ghost use Rattle.spv_proof_steps.specs.Candidates as candidates;
ghost use Rattle.spv_tableau_rules.specs.constraints.Sayings.{literal};
ghost use Rattle.spv_assignments.specs.partial_assignment.Facts.{fact_of, facts_of};
ghost use Rattle.spv_decisions.specs.literal_lookup.Facts.{AreCores, HasFact, IsCore};

use crate::literal_lookup::ordering::{order_of, puts_below, same_term};
use spv_assignments::partial_assignment::Known;
use spv_derivations::derivation::Part;
use spv_proof_steps::candidates::lower;
use spv_term::{TermId, Terms};

// Whether a fact says that a term is true, where the fact is no order.
fn is_itself(terms: &Terms, k: Known, t: TermId) -> bool
    requires k { k.term.0 < length terms.now.nodes }
    requires t { t.0 < length terms.now.nodes }
    requires bare { sums.negated (tree terms.now t) ≡ None }
    requires unordered { candidates.lower (fact_of terms.now k) ≡ None }
    ensures { result ≡ term_eq (tree terms.now t) (fact_of terms.now k) }
{
    match k.part {
        Part::False => false,
        _ => same_term(terms, t, k.term),
    }
}

// Whether a fact says that a term is true, where the term is no order.
fn names(terms: &Terms, k: Known, t: TermId) -> bool
    requires k { k.term.0 < length terms.now.nodes }
    requires t { t.0 < length terms.now.nodes }
    requires bare { sums.negated (tree terms.now t) ≡ None }
    requires unordered { candidates.lower (tree terms.now t) ≡ None }
    ensures { result ≡ term_eq (tree terms.now t) (fact_of terms.now k) }
{
    match order_of(terms, k) {
        Some(_) => false,
        None => is_itself(terms, k, t),
    }
}

// Whether a fact says that a term is true.
pub(crate) fn affirms(terms: &Terms, k: Known, t: TermId) -> bool
    requires k { k.term.0 < length terms.now.nodes }
    requires t { t.0 < length terms.now.nodes }
    requires bare { sums.negated (tree terms.now t) ≡ None }
    ensures { result ≡ term_eq (tree terms.now t) (fact_of terms.now k) }
{
    match lower(terms, t) {
        Some((low, high)) => puts_below(terms, k, low, high),
        None => names(terms, k, t),
    }
}

// Whether a fact says that a term is false.
fn denies(terms: &Terms, k: Known, t: TermId) -> bool
    requires k { IsCore terms.now k }
    requires t { t.0 < length terms.now.nodes }
    ensures { result ≡ term_eq (negation (tree terms.now t)) (fact_of terms.now k) }
{
    match k.part {
        Part::False => same_term(terms, t, k.term),
        _ => false,
    }
}

// Whether a fact says that a term has this truth.
fn says(terms: &Terms, k: Known, t: TermId, truth: bool) -> bool
    requires k { IsCore terms.now k }
    requires t { t.0 < length terms.now.nodes }
    requires bare { sums.negated (tree terms.now t) ≡ None }
    ensures { result ≡ term_eq (literal truth (tree terms.now t)) (fact_of terms.now k) }
{
    if truth {
        affirms(terms, k, t)
    } else {
        denies(terms, k, t)
    }
}

/// The number of a fact that says that a term has this truth, where one is known.
pub fn find_fact(terms: &Terms, known: &[Known], t: TermId, truth: bool) -> Option<u32>
    requires known { AreCores terms.now known.now }
    requires t { t.0 < length terms.now.nodes }
    requires bare { sums.negated (tree terms.now t) ≡ None }
    ensures found { IfSome result (λ n. HasFact terms.now known.now n (literal truth (tree terms.now t))) }
    ensures none { IfNone result (cites (facts_of terms.now known.now) (literal truth (tree terms.now t)) ≡ false) }
{
    for k in known {
        if says(terms, *k, t, truth) {
            return Some(k.fact);
        }
    }
    None
}
