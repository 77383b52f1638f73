// Whether a listing speaks of a condition.

ghost use Rattle.std.specs.Prelude.{◌≡◌, ◌<◌, ◌&&◌, length, map};
ghost use Rattle.spv_term.specs.Arena.{AllBelow, tree};
ghost use Rattle.spv_logic.specs.Terms.{term_eq};
ghost use Rattle.spv_rechecking.specs.Rechecked as spec;

use spv_listing_values::data::Header;
use spv_logic::Kind;
use spv_term::{TermId, Terms};

// Whether two kinds are the same.
fn same_kind(left: Kind, right: Kind) -> bool
    ensures { result ≡ spec.kind_eq left right }
{
    match left {
        Kind::Exit => matches!(right, Kind::Exit),
        Kind::Assert => matches!(right, Kind::Assert),
        Kind::Invariant => matches!(right, Kind::Invariant),
        Kind::Preserved => matches!(right, Kind::Preserved),
        Kind::Entry => matches!(right, Kind::Entry),
    }
}

/// Whether a header is that of a routine, a kind and a line.
pub(crate) fn same_header(header: &Header, routine: &[u8], kind: Kind, line: u32) -> bool
    ensures { result ≡ spec.header_eq header.now (record { routine = routine.now; kind = kind; line = line }) }
{
    header.routine.as_slice() == routine && same_kind(header.kind, kind) && header.line == line
}

// Whether two terms of an arena are the same.
fn same_term(terms: &Terms, left: TermId, right: TermId) -> bool
    requires left { left.0 < length terms.now.nodes }
    requires right { right.0 < length terms.now.nodes }
    ensures { result ≡ term_eq (tree terms.now left) (tree terms.now right) }
{
    terms.law_arena();
    left.0 == right.0
}

// Whether terms of an arena are the same, one by one.
fn same_terms(terms: &Terms, left: &[TermId], right: &[TermId]) -> bool
    requires left { AllBelow (length terms.now.nodes) left.now }
    requires right { AllBelow (length terms.now.nodes) right.now }
    ensures { result ≡ spec.terms_eq (map (tree terms.now) left.now) (map (tree terms.now) right.now) }
{
    if left.len() != right.len() {
        return false;
    }
    for i in 0..left.len() {
        if !same_term(terms, left[i], right[i]) {
            return false;
        }
    }
    true
}

/// Whether hypotheses and goals are the same.
pub(crate) fn same_claim(
    terms: &Terms,
    given: &[TermId],
    goal: TermId,
    other_given: &[TermId],
    other_goal: TermId,
) -> bool
    requires given { AllBelow (length terms.now.nodes) given.now }
    requires goal { goal.0 < length terms.now.nodes }
    requires other_given { AllBelow (length terms.now.nodes) other_given.now }
    requires other_goal { other_goal.0 < length terms.now.nodes }
    ensures { result ≡ (spec.terms_eq (map (tree terms.now) given.now) (map (tree terms.now) other_given.now) && term_eq (tree terms.now goal) (tree terms.now other_goal)) }
{
    same_terms(terms, given, other_given) && same_term(terms, goal, other_goal)
}
