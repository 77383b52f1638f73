// Relations of numerals.

ghost use Rattle.std.specs.Prelude.{◌≡◌, ◌<◌, ℤ, Bool, length};
ghost use Rattle.std.specs.Option.{option_map};
ghost use Rattle.spv_logic.specs.Terms.{term};
ghost use Rattle.spv_term.specs.Arena.{AllBelow, tree, trees, IsArena};
ghost use Rattle.spv_atoms.specs.Tables as spec;

use spv_term::{Head, TermId, Terms};

/// The number of a term that is a numeral.
pub fn numeral(terms: &Terms, t: TermId) -> Option<i128>
    requires { t.0 < length terms.now.nodes }
    ensures { result ≡ spec.numeral (tree terms.now t) }
{
    terms.law_arena();
    match terms.node(t).head {
        Head::Num(value) => Some(value),
        _ => None,
    }
}

// The numbers of two numerals.
fn numerals(terms: &Terms, args: &[TermId]) -> Option<(i128, i128)>
    requires { AllBelow (length terms.now.nodes) args.now }
    ensures { (test : ℤ → ℤ → Bool) → option_map (λ p. test p.0 p.1) result
        ≡ spec.compare_numerals test (trees terms.now args.now) }
{
    let [s, t] = args else {
        return None;
    };
    let left = numeral(terms, *s)?;
    let right = numeral(terms, *t)?;
    Some((left, right))
}

// The truth of a relation of two numerals, by its head and what it relates.
pub(crate) fn relation(terms: &Terms, head: Head, args: &[TermId]) -> Option<bool>
    requires { AllBelow (length terms.now.nodes) args.now }
    ensures { result ≡ spec.numeral_relation (term head (trees terms.now args.now)) }
{
    match head {
        Head::Eq => numerals(terms, args).map(|(left, right)| left == right),
        Head::Lt => numerals(terms, args).map(|(left, right)| left < right),
        Head::Le => numerals(terms, args).map(|(left, right)| left <= right),
        _ => None,
    }
}

/// The truth of a term that is a relation of two numerals.
pub fn numeral_relation(terms: &Terms, t: TermId) -> Option<bool>
    requires { t.0 < length terms.now.nodes }
    ensures { result ≡ spec.numeral_relation (tree terms.now t) }
{
    terms.law_arena();
    let node = terms.node(t);
    relation(terms, node.head, node.args.as_slice())
}
