// The relations of whole numbers.

ghost use Rattle.std.specs.Prelude.{◌≡◌, ◌<◌, length, MatchOption, None};
ghost use Rattle.spv_term.specs.Arena.{AllBelow, IsArena, tree, trees};
ghost use Rattle.spv_proof_rules.specs.Sums.{pair};
ghost use Rattle.spv_proof.specs.sums.Readings.{number_in};
ghost use Rattle.spv_tableau_rules.specs.constraints.Relations as spec;
ghost use Rattle.spv_arithmetic_side.specs.bounds.Pairs.{IsPair};

use spv_proof::sums::is_number;
use spv_term::{Head, TermId, Terms};

// The two terms of a list, where there are two and they are numbers.
fn number_pair(terms: &Terms, args: &[TermId]) -> Option<(TermId, TermId)>
    requires { AllBelow (length terms.now.nodes) args.now }
    ensures { MatchOption result (spec.if_numbers (number_in terms.now) (pair (trees terms.now args.now)) ≡ None)
        (λ p. IsPair terms.now (spec.if_numbers (number_in terms.now) (pair (trees terms.now args.now))) p) }
{
    if args.len() != 2 {
        return None;
    }
    if is_number(terms, args[0]) && is_number(terms, args[1]) {
        Some((args[0], args[1]))
    } else {
        None
    }
}

/// The sides of a relation of whole numbers: of `=`, `<` or `<=` over two terms of sort Int. `None` for any other term.
pub fn number_sides(terms: &Terms, t: TermId) -> Option<(TermId, TermId)>
    requires { t.0 < length terms.now.nodes }
    ensures { MatchOption result (spec.number_sides (number_in terms.now) (tree terms.now t) ≡ None)
        (λ p. IsPair terms.now (spec.number_sides (number_in terms.now) (tree terms.now t)) p) }
{
    terms.law_arena();
    let node = terms.node(t);
    match node.head {
        Head::Eq | Head::Lt | Head::Le => number_pair(terms, node.args.as_slice()),
        _ => None,
    }
}
