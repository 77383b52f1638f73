// Orders that facts give.

ghost use Rattle.std.specs.Prelude.{◌≡◌, ◌<◌, ◌&&◌, ◌||◌, true, false, length, IfNone, IfSome};
ghost use Rattle.std.specs.Option.{option_map, ForSome};
ghost use Rattle.spv_logic.specs.Terms.{term_eq};
ghost use Rattle.spv_logic.specs.Formulas.{below};
ghost use Rattle.spv_term.specs.Arena.{tree};
ghost use Rattle.spv_derivations.specs.derivation.Derivation.{literal};
ghost use Rattle.spv_derivations.specs.declared.derivation.entries.Part.TheVariants as part;
ghost use Rattle.spv_proof_steps.specs.Candidates as candidates;
ghost use Rattle.spv_proof_steps.specs.Candidates.{pair_of, PairIn};
ghost use Rattle.spv_assignments.specs.partial_assignment.Facts.{fact_of};
ghost use Rattle.spv_decisions.specs.literal_lookup.Facts.{AreThere, IsAmong};
ghost use Rattle.spv_decisions.specs.literal_lookup.Orders.{IsOrderPart};
ghost use Rattle.spv_decisions.specs.literal_lookup.Orders as spec;

use spv_assignments::partial_assignment::Known;
use spv_derivations::derivation::Part;
use spv_proof_steps::candidates::lower;
use spv_proof_steps::sides;
use spv_term::{TermId, Terms};

// The order that is given where the left side of a term is below the right one.
fn left_first(terms: &Terms, t: TermId) -> Option<(TermId, TermId)>
    requires { t.0 < length terms.now.nodes }
    ensures value { option_map (pair_of terms.now) result ≡ candidates.lower (literal (tree terms.now t) part.Below) }
    ensures in_range { ForSome result (PairIn terms.now) }
{
    match sides(terms, t) {
        Some((left, right)) => Some((left, right)),
        None => lower(terms, t),
    }
}

// The order that is given where the right side of a term is below the left one.
fn right_first(terms: &Terms, t: TermId) -> Option<(TermId, TermId)>
    requires { t.0 < length terms.now.nodes }
    ensures value { option_map (pair_of terms.now) result ≡ candidates.lower (literal (tree terms.now t) part.Above) }
    ensures in_range { ForSome result (PairIn terms.now) }
{
    match sides(terms, t) {
        Some((left, right)) => Some((right, left)),
        None => lower(terms, t),
    }
}

/// The two sides that a fact puts in order, the lower one first.
pub fn order_of(terms: &Terms, k: Known) -> Option<(TermId, TermId)>
    requires { k.term.0 < length terms.now.nodes }
    ensures value { option_map (pair_of terms.now) result ≡ candidates.lower (fact_of terms.now k) }
    ensures in_range { ForSome result (PairIn terms.now) }
{
    match k.part {
        Part::True => lower(terms, k.term),
        Part::False => None,
        Part::Below => left_first(terms, k.term),
        Part::Above => right_first(terms, k.term),
    }
}

// Whether two ids are one term.
pub(crate) fn same_term(terms: &Terms, t: TermId, u: TermId) -> bool
    requires t { t.0 < length terms.now.nodes }
    requires u { u.0 < length terms.now.nodes }
    ensures { result ≡ term_eq (tree terms.now t) (tree terms.now u) }
{
    terms.law_arena();
    t.0 == u.0
}

// Whether two pairs of ids are the same terms.
fn same_terms(terms: &Terms, s: TermId, p: TermId, t: TermId, q: TermId) -> bool
    requires s { s.0 < length terms.now.nodes }
    requires p { p.0 < length terms.now.nodes }
    requires t { t.0 < length terms.now.nodes }
    requires q { q.0 < length terms.now.nodes }
    ensures { result
        ≡ (term_eq (tree terms.now s) (tree terms.now p) && term_eq (tree terms.now t) (tree terms.now q)) }
{
    same_term(terms, s, p) && same_term(terms, t, q)
}

// Whether a fact puts one of two terms below the other.
pub(crate) fn puts_below(terms: &Terms, k: Known, s: TermId, t: TermId) -> bool
    requires k { k.term.0 < length terms.now.nodes }
    requires s { s.0 < length terms.now.nodes }
    requires t { t.0 < length terms.now.nodes }
    ensures { result ≡ term_eq (below (tree terms.now s) (tree terms.now t)) (fact_of terms.now k) }
{
    match order_of(terms, k) {
        Some((low, high)) => same_terms(terms, s, low, t, high),
        None => false,
    }
}

// Whether a fact is an order of two terms, whichever is below the other.
fn compares(terms: &Terms, k: Known, s: TermId, t: TermId) -> bool
    requires k { k.term.0 < length terms.now.nodes }
    requires s { s.0 < length terms.now.nodes }
    requires t { t.0 < length terms.now.nodes }
    ensures { result
        ≡ (term_eq (below (tree terms.now s) (tree terms.now t)) (fact_of terms.now k)
        || term_eq (below (tree terms.now t) (tree terms.now s)) (fact_of terms.now k)) }
{
    puts_below(terms, k, s, t) || puts_below(terms, k, t, s)
}

/// Whether a fact is an order of the sides of a term.
pub fn orders(terms: &Terms, t: TermId, k: Known) -> bool
    requires t { t.0 < length terms.now.nodes }
    requires k { k.term.0 < length terms.now.nodes }
    ensures value { result ≡ spec.orders terms.now t k }
{
    match sides(terms, t) {
        Some((left, right)) => compares(terms, k, left, right),
        None => false,
    }
}

/// How a fact that is an order of the sides of a term is told of the term.
pub fn order_part(terms: &Terms, t: TermId, k: Known) -> Part
    requires t { t.0 < length terms.now.nodes }
    requires k { k.term.0 < length terms.now.nodes }
    requires orders { spec.orders terms.now t k ≡ true }
    ensures { IsOrderPart terms.now t k result }
{
    match sides(terms, t) {
        Some((left, right)) => {
            if puts_below(terms, k, left, right) {
                Part::Below
            } else {
                Part::Above
            }
        }
        None => unreachable!(),
    }
}

/// A fact that is an order of the sides of a term, where one is known.
pub fn find_order(terms: &Terms, known: &[Known], t: TermId) -> Option<Known>
    requires known { AreThere terms.now known.now }
    requires t { t.0 < length terms.now.nodes }
    ensures found { IfSome result (λ k. IsAmong known.now k × (spec.orders terms.now t k ≡ true)) }
    ensures none { IfNone result (spec.has_order terms.now known.now t ≡ false) }
{
    for k in known {
        if orders(terms, t, *k) {
            return Some(*k);
        }
    }
    None
}
