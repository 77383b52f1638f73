// The atom that a search splits on next.

ghost use Rattle.std.specs.Prelude.{◌≡◌, ◌<◌, true, None, length, IfSome, IfNone};
ghost use Rattle.spv_term.specs.Arena.{AllBelow};
ghost use Rattle.spv_assignments.specs.kleene.Passes.{at, StandsAt};
ghost use Rattle.spv_decisions.specs.literal_lookup.Facts.{AreThere};
ghost use Rattle.spv_decisions.specs.literal_lookup.Orders.{has_order};
ghost use Rattle.spv_decisions.specs.decision.Choosing as spec;
ghost use Rattle.spv_decisions.specs.decision.Choosing.{HaveOrders, HaveValues, IsChoice};

use crate::literal_lookup::find_order;
use spv_assignments::kleene::value_at;
use spv_assignments::partial_assignment::Known;
use spv_proof_steps::sides;
use spv_search_terms::head_index::is_number;
use spv_term::{TermId, Terms};

/// What a search does with a path on which nothing follows.
#[derive(Clone, Copy, Debug)]
pub enum Choice {
    /// It splits on this atom.
    Split(TermId),
    /// Nothing is left to split on.
    Full,
}

// Whether a fact is known that is an order of the sides of a term.
fn is_ordered(terms: &Terms, known: &[Known], t: TermId) -> bool
    requires known { AreThere terms.now known.now }
    requires t { t.0 < length terms.now.nodes }
    ensures { result ≡ has_order terms.now known.now t }
{
    match find_order(terms, known, t) {
        Some(_) => true,
        None => false,
    }
}

// Whether a term is an equation of two numbers.
fn is_comparison(terms: &Terms, t: TermId) -> bool
    requires { t.0 < length terms.now.nodes }
    ensures { result ≡ spec.is_comparison terms.now t }
{
    match sides(terms, t) {
        Some((left, right)) => is_number(terms, left) && is_number(terms, right),
        None => false,
    }
}

// Whether it is known that a term is false.
fn is_false(values: &[Option<bool>], t: TermId) -> bool
    ensures { result ≡ spec.is_false (at values.now t.0) }
{
    match value_at(values, t) {
        Some(value) => !value,
        None => false,
    }
}

// Whether a term is an equation of two numbers that is false, and no fact is an order of its sides.
fn lacks_order(terms: &Terms, values: &[Option<bool>], known: &[Known], t: TermId) -> bool
    requires known { AreThere terms.now known.now }
    requires t { t.0 < length terms.now.nodes }
    ensures { result ≡ spec.lacks_order terms.now values.now known.now t }
{
    is_false(values, t) && is_comparison(terms, t) && !is_ordered(terms, known, t)
}

// The first of these atoms that has no value.
fn without_value(atoms: &[TermId], values: &[Option<bool>]) -> Option<TermId>
    ensures found { IfSome result (λ t. StandsAt atoms.now t × (at values.now t.0 ≡ None)) }
    ensures none { IfNone result (HaveValues values.now atoms.now) }
{
    for t in atoms {
        if value_at(values, *t).is_none() {
            return Some(*t);
        }
    }
    None
}

// The first of these atoms that is an equation without an order.
fn without_order(
    terms: &Terms,
    atoms: &[TermId],
    values: &[Option<bool>],
    known: &[Known],
) -> Option<TermId>
    requires atoms { AllBelow (length terms.now.nodes) atoms.now }
    requires known { AreThere terms.now known.now }
    ensures found { IfSome result (λ t. StandsAt atoms.now t × (spec.lacks_order terms.now values.now known.now t ≡ true)) }
    ensures none { IfNone result (HaveOrders terms.now values.now known.now atoms.now) }
{
    for t in atoms {
        if lacks_order(terms, values, known, *t) {
            return Some(*t);
        }
    }
    None
}

/// An atom without a value, else an equation of whole numbers that is false and of whose sides no order is known; or there is none.
pub fn choose(terms: &Terms, atoms: &[TermId], values: &[Option<bool>], known: &[Known]) -> Choice
    requires atoms { AllBelow (length terms.now.nodes) atoms.now }
    requires known { AreThere terms.now known.now }
    ensures choice { IsChoice terms.now atoms.now values.now known.now result }
{
    if let Some(t) = without_value(atoms, values) {
        return Choice::Split(t);
    }
    if let Some(t) = without_order(terms, atoms, values, known) {
        return Choice::Split(t);
    }
    Choice::Full
}
