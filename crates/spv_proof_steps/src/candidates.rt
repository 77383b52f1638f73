// How terms of the arena look, and formulas that need not stand there.

ghost use Rattle.std.specs.Prelude.{◌≡◌, ◌<◌, ◌&&◌, length, IsTrue, Some};
ghost use Rattle.std.specs.Option.{option_map, ForSome};
ghost use Rattle.spv_logic.specs.Terms.{term_eq};
ghost use Rattle.spv_term.specs.Arena.{tree, sort_at, IsArena};
ghost use Rattle.spv_logic.specs.Formulas as formulas;
ghost use Rattle.spv_proof_rules.specs.Sums as sums;
ghost use Rattle.spv_proof_rules.specs.Evaluation as spec;
ghost use Rattle.spv_proof_steps.specs.Candidates as candidates;
ghost use Rattle.spv_proof_steps.specs.Candidates.{formula_of, pair_of, MayStand, PairIn};

use spv_term::{Head, TermId, Terms};

/// A formula over terms of an arena, that need not stand there itself.
#[derive(Clone, Copy, Debug)]
pub enum Candidate {
    /// A term of the arena.
    Known(TermId),
    /// The negation of a term.
    Negation(TermId),
    /// The equation of two terms.
    Equation(TermId, TermId),
}

/// What a term negates.
pub fn negated(terms: &Terms, t: TermId) -> Option<TermId>
    requires { t.0 < length terms.now.nodes }
    ensures value { option_map (tree terms.now) result ≡ sums.negated (tree terms.now t) }
    ensures in_range { ForSome result (λ u. u.0 < length terms.now.nodes) }
{
    terms.law_arena();
    let node = terms.node(t);
    match node.head {
        Head::Not => Some(node.args.get(0)),
        _ => None,
    }
}

/// The two sides of an equation.
pub fn sides(terms: &Terms, t: TermId) -> Option<(TermId, TermId)>
    requires { t.0 < length terms.now.nodes }
    ensures value { option_map (pair_of terms.now) result ≡ spec.sides (tree terms.now t) }
    ensures in_range { ForSome result (PairIn terms.now) }
    ensures sorted { ForSome result (λ p. sort_at terms.now p.0 ≡ sort_at terms.now p.1) }
{
    terms.law_arena();
    let node = terms.node(t);
    match node.head {
        Head::Eq => Some((node.args.get(0), node.args.get(1))),
        _ => None,
    }
}

/// The two sides of a strict order, the lower one first.
pub fn lower(terms: &Terms, t: TermId) -> Option<(TermId, TermId)>
    requires { t.0 < length terms.now.nodes }
    ensures value { option_map (pair_of terms.now) result ≡ candidates.lower (tree terms.now t) }
    ensures in_range { ForSome result (PairIn terms.now) }
{
    terms.law_arena();
    let node = terms.node(t);
    match node.head {
        Head::Lt => Some((node.args.get(0), node.args.get(1))),
        _ => None,
    }
}

// Whether two ids are one term.
#[tactic(auto, using(crate::proofs::Same::sameness))]
pub(crate) fn same_term(terms: &Terms, t: TermId, u: TermId) -> bool
    requires t { t.0 < length terms.now.nodes }
    requires u { u.0 < length terms.now.nodes }
    ensures value { result ≡ term_eq (tree terms.now t) (tree terms.now u) }
    ensures ids { IsTrue result → t ≡ u }
{
    terms.law_arena();
    t == u
}

// Whether two pairs of ids are the same terms.
#[tactic(auto, using(crate::proofs::Same::sameness))]
fn same_terms(terms: &Terms, s: TermId, p: TermId, t: TermId, q: TermId) -> bool
    requires s { s.0 < length terms.now.nodes }
    requires p { p.0 < length terms.now.nodes }
    requires t { t.0 < length terms.now.nodes }
    requires q { q.0 < length terms.now.nodes }
    ensures { result
        ≡ (term_eq (tree terms.now s) (tree terms.now p) && term_eq (tree terms.now t) (tree terms.now q)) }
{
    same_term(terms, s, p) && same_term(terms, t, q)
}

// Whether a term is the negation of another.
#[tactic(auto, using(crate::proofs::Same::sameness))]
fn is_negation(terms: &Terms, u: TermId, t: TermId) -> bool
    requires u { u.0 < length terms.now.nodes }
    requires t { t.0 < length terms.now.nodes }
    ensures { result ≡ term_eq (formulas.negation (tree terms.now t)) (tree terms.now u) }
{
    match negated(terms, u) {
        Some(inner) => same_term(terms, t, inner),
        None => false,
    }
}

// Whether a term is the equation of two others.
#[tactic(auto, using(crate::proofs::Same::sameness))]
pub(crate) fn is_equation(terms: &Terms, u: TermId, s: TermId, t: TermId) -> bool
    requires u { u.0 < length terms.now.nodes }
    requires s { s.0 < length terms.now.nodes }
    requires t { t.0 < length terms.now.nodes }
    ensures { result ≡ term_eq (formulas.equation (tree terms.now s) (tree terms.now t)) (tree terms.now u) }
{
    match sides(terms, u) {
        Some((left, right)) => same_terms(terms, s, left, t, right),
        None => false,
    }
}

// Whether a term puts one of two others below the other.
#[tactic(auto, using(crate::proofs::Same::sameness))]
pub(crate) fn is_below(terms: &Terms, u: TermId, s: TermId, t: TermId) -> bool
    requires u { u.0 < length terms.now.nodes }
    requires s { s.0 < length terms.now.nodes }
    requires t { t.0 < length terms.now.nodes }
    ensures { result ≡ term_eq (formulas.below (tree terms.now s) (tree terms.now t)) (tree terms.now u) }
{
    match lower(terms, u) {
        Some((left, right)) => same_terms(terms, s, left, t, right),
        None => false,
    }
}

/// Whether a formula is this term.
#[tactic(auto, using(crate::proofs::Same::sameness))]
pub(crate) fn is_term(terms: &Terms, formula: Candidate, u: TermId) -> bool
    requires formula { MayStand terms.now formula }
    requires u { u.0 < length terms.now.nodes }
    ensures { result ≡ term_eq (tree terms.now u) (formula_of terms.now formula) }
{
    match formula {
        Candidate::Known(t) => same_term(terms, u, t),
        Candidate::Negation(t) => is_negation(terms, u, t),
        Candidate::Equation(s, t) => is_equation(terms, u, s, t),
    }
}

// Whether a formula is the negation of a term.
#[tactic(auto, using(crate::proofs::Same::sameness))]
fn is_negation_of(terms: &Terms, formula: Candidate, t: TermId) -> bool
    requires formula { MayStand terms.now formula }
    requires t { t.0 < length terms.now.nodes }
    ensures { result ≡ term_eq (formulas.negation (tree terms.now t)) (formula_of terms.now formula) }
{
    match formula {
        Candidate::Known(u) => is_negation(terms, u, t),
        Candidate::Negation(u) => same_term(terms, t, u),
        Candidate::Equation(_, _) => false,
    }
}

// Whether a formula is the equation of two terms.
#[tactic(auto, using(crate::proofs::Same::sameness))]
fn is_equation_of(terms: &Terms, formula: Candidate, s: TermId, t: TermId) -> bool
    requires formula { MayStand terms.now formula }
    requires s { s.0 < length terms.now.nodes }
    requires t { t.0 < length terms.now.nodes }
    ensures { result
        ≡ term_eq (formulas.equation (tree terms.now s) (tree terms.now t)) (formula_of terms.now formula) }
{
    match formula {
        Candidate::Known(u) => is_equation(terms, u, s, t),
        Candidate::Negation(_) => false,
        Candidate::Equation(p, q) => same_terms(terms, s, p, t, q),
    }
}

/// Whether two formulas are one.
#[tactic(auto, using(crate::proofs::Same::sameness))]
pub(crate) fn same(terms: &Terms, left: Candidate, right: Candidate) -> bool
    requires left { MayStand terms.now left }
    requires right { MayStand terms.now right }
    ensures { result ≡ term_eq (formula_of terms.now left) (formula_of terms.now right) }
{
    match left {
        Candidate::Known(t) => is_term(terms, right, t),
        Candidate::Negation(t) => is_negation_of(terms, right, t),
        Candidate::Equation(s, t) => is_equation_of(terms, right, s, t),
    }
}

/// What a formula negates.
pub(crate) fn negated_by(terms: &Terms, formula: Candidate) -> Option<TermId>
    requires { MayStand terms.now formula }
    ensures value { option_map (tree terms.now) result ≡ sums.negated (formula_of terms.now formula) }
    ensures in_range { ForSome result (λ u. u.0 < length terms.now.nodes) }
{
    match formula {
        Candidate::Known(t) => negated(terms, t),
        Candidate::Negation(t) => Some(t),
        Candidate::Equation(_, _) => None,
    }
}
