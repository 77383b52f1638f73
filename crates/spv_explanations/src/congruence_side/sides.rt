// The sides of an equation that is no connective.

ghost use Rattle.std.specs.Prelude.{◌≡◌, ◌<◌, length, slice_get};
ghost use Rattle.spv_term.specs.Arena.{AllBelow, IsArena, tree};
ghost use Rattle.spv_derivations.specs.derivation.Sides.{two_of, node_sides};
ghost use Rattle.spv_explanations.specs.congruence_side.Telling as spec;

use spv_proof_steps::is_truth;
use spv_term::{Head, TermId, Terms};

// Two terms, unless both are of sort Bool.
fn unless_truths(terms: &Terms, args: &[TermId]) -> Option<(TermId, TermId)>
    requires { AllBelow (length terms.now.nodes) args.now }
    ensures { result ≡ spec.unless_truths terms.now (two_of args.now) }
{
    match args {
        [s, t] => {
            if is_truth(terms, *s) && is_truth(terms, *t) {
                return None;
            }
            Some((*s, *t))
        }
        _ => None,
    }
}

/// The sides of an equation that is no connective.
pub(crate) fn equation_sides(terms: &Terms, t: TermId) -> Option<(TermId, TermId)>
    requires { t.0 < length terms.now.nodes }
    ensures { result ≡ spec.equation_sides terms.now t }
{
    terms.law_arena();
    let node = terms.node(t);
    match node.head {
        Head::Eq => unless_truths(terms, node.args.as_slice()),
        _ => None,
    }
}
