// Facts that contradict a new one.

ghost use Rattle.std.specs.Prelude.{◌≡◌, ◌<◌, false, length, IfNone, IfSome};
ghost use Rattle.spv_proof_rules.specs.Sums as sums;
ghost use Rattle.spv_proof_rules.specs.Effects as effects;
ghost use Rattle.spv_assignments.specs.partial_assignment.Facts.{fact_of};
ghost use Rattle.spv_decisions.specs.literal_lookup.Facts.{AreCores, IsCore};
ghost use Rattle.spv_decisions.specs.literal_lookup.Orders as spec;
ghost use Rattle.spv_decisions.specs.literal_lookup.Clashes.{clash, IsClash, IsClashWith, NoneClashes};

use crate::literal_lookup::ordering::orders;
use crate::literal_lookup::saying::affirms;
use spv_assignments::partial_assignment::Known;
use spv_derivations::derivation::Part;
use spv_term::Terms;

/// Two facts that are never both true, one of which is new.
#[derive(Clone, Copy, Debug)]
pub enum Clash {
    /// One is the negation of the other. The number is that of the one that was known.
    Opposite(u32),
    /// An equation, and an order of its sides.
    Crossed {
        /// The fact that the equation is true.
        equation: Known,
        /// The fact that is an order of its sides.
        order: Known,
    },
}

// Whether a fact is the negation of another one.
fn negates(terms: &Terms, f: Known, g: Known) -> bool
    requires f { IsCore terms.now f }
    requires g { IsCore terms.now g }
    ensures { result ≡ effects.is_negation_of (sums.negated (fact_of terms.now f)) (fact_of terms.now g) }
{
    match f.part {
        Part::False => affirms(terms, g, f.term),
        _ => false,
    }
}

// Whether one of two facts is the negation of the other.
fn contrary(terms: &Terms, f: Known, g: Known) -> bool
    requires f { IsCore terms.now f }
    requires g { IsCore terms.now g }
    ensures { result ≡ effects.contrary (fact_of terms.now f) (fact_of terms.now g) }
{
    negates(terms, f, g) || negates(terms, g, f)
}

// Whether a fact is an order of the sides of another one.
fn crosses(terms: &Terms, f: Known, g: Known) -> bool
    requires f { IsCore terms.now f }
    requires g { IsCore terms.now g }
    ensures { result ≡ spec.crosses (fact_of terms.now f) (fact_of terms.now g) }
{
    match f.part {
        Part::True => orders(terms, f.term, g),
        _ => false,
    }
}

// Why a new fact and another one are never both true, where this is so.
fn clash_with(terms: &Terms, added: Known, k: Known) -> Option<Clash>
    requires added { IsCore terms.now added }
    requires k { IsCore terms.now k }
    ensures found { IfSome result (IsClashWith terms.now added k) }
    ensures none { IfNone result (clash (fact_of terms.now added) (fact_of terms.now k) ≡ false) }
{
    if contrary(terms, added, k) {
        return Some(Clash::Opposite(k.fact));
    }
    if crosses(terms, added, k) {
        return Some(Clash::Crossed {
            equation: added,
            order: k,
        });
    }
    if crosses(terms, k, added) {
        return Some(Clash::Crossed {
            equation: k,
            order: added,
        });
    }
    None
}

/// What contradicts a new fact, where a known one does.
pub fn find_clash(terms: &Terms, known: &[Known], added: Known) -> Option<Clash>
    requires known { AreCores terms.now known.now }
    requires added { IsCore terms.now added }
    ensures found { IfSome result (IsClash terms.now known.now added) }
    ensures none { IfNone result (NoneClashes terms.now known.now added) }
{
    for k in known {
        if let Some(found) = clash_with(terms, added, *k) {
            return Some(found);
        }
    }
    None
}
