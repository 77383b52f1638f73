// Tests of terms.

ghost use Rattle.std.specs.Prelude.{◌≡◌, ◌<◌, ◌&&◌, ◌||◌, length};
ghost use Rattle.spv_logic.specs.Terms.{head_eq, sort_eq};
ghost use Rattle.spv_logic.specs.Sorts.{sorts_eq};
ghost use Rattle.spv_term.specs.Arena.{AllBelow, tree, trees, sorts_at};
ghost use Rattle.spv_atoms.specs.Atoms as spec;
ghost use Rattle.spv_atoms.specs.Tables as tables;
ghost use Rattle.spv_models.specs.leaf_models.Subterms.{is_listed};
ghost use Rattle.spv_models.specs.leaf_models.Atoms.{are_comparable};

use spv_term::{Head, Sort, TermId, Terms};

/// Whether a term is of sort Bool.
pub fn is_truth(terms: &Terms, t: TermId) -> bool
    requires { t.0 < length terms.now.nodes }
    ensures { result ≡ spec.is_truth terms.now.shapes terms.now.decls (tree terms.now t) }
{
    terms.law_arena();
    match terms.sort(t) {
        Sort::Bool => true,
        _ => false,
    }
}

/// Whether a term is of sort Int.
pub fn is_number(terms: &Terms, t: TermId) -> bool
    requires { t.0 < length terms.now.nodes }
    ensures { result ≡ spec.is_number terms.now.shapes terms.now.decls (tree terms.now t) }
{
    terms.law_arena();
    match terms.sort(t) {
        Sort::Int => true,
        _ => false,
    }
}

// Whether terms are all of sort Bool.
fn all_truths(terms: &Terms, args: &[TermId]) -> bool
    requires { AllBelow (length terms.now.nodes) args.now }
    ensures { result
        ≡ tables.all_truths (spec.is_truth terms.now.shapes terms.now.decls) (trees terms.now args.now) }
{
    for t in args {
        if !is_truth(terms, *t) {
            return false;
        }
    }
    true
}

// Whether a head over these terms is a connective.
fn connects(terms: &Terms, head: Head, args: &[TermId]) -> bool
    requires { AllBelow (length terms.now.nodes) args.now }
    ensures { result
        ≡ spec.connects (tables.all_truths (spec.is_truth terms.now.shapes terms.now.decls) (trees terms.now args.now)) head }
{
    match head {
        Head::Not | Head::And | Head::Or | Head::Implies => true,
        Head::Eq => all_truths(terms, args),
        _ => false,
    }
}

/// Whether a term is a connective over its arguments.
pub fn is_connective(terms: &Terms, t: TermId) -> bool
    requires { t.0 < length terms.now.nodes }
    ensures { result ≡ spec.is_connective (spec.is_truth terms.now.shapes terms.now.decls) (tree terms.now t) }
{
    terms.law_arena();
    let node = terms.node(t);
    connects(terms, node.head, node.args.as_slice())
}

// Whether a head is TRUE or FALSE.
fn is_fixed(head: Head) -> bool
    ensures { result ≡ spec.is_fixed head }
{
    match head {
        Head::True | Head::False => true,
        _ => false,
    }
}

/// Whether a term is TRUE or FALSE.
pub fn is_truth_value(terms: &Terms, t: TermId) -> bool
    requires { t.0 < length terms.now.nodes }
    ensures { result ≡ spec.is_truth_value (tree terms.now t) }
{
    terms.law_arena();
    is_fixed(terms.node(t).head)
}

// Whether two heads are the same.
fn same_head(left: Head, right: Head) -> bool
    ensures { result ≡ head_eq left right }
{
    left == right
}

// Whether two sorts are the same.
fn same_sort(left: Sort, right: Sort) -> bool
    ensures { result ≡ sort_eq left right }
{
    left == right
}

// Whether terms have the same sorts, one by one.
fn same_sorts(terms: &Terms, left: &[TermId], right: &[TermId]) -> bool
    requires left { AllBelow (length terms.now.nodes) left.now }
    requires right { AllBelow (length terms.now.nodes) right.now }
    ensures { result ≡ sorts_eq (sorts_at terms.now left.now) (sorts_at terms.now right.now) }
{
    if left.len() != right.len() {
        return false;
    }
    for i in 0..left.len() {
        if !same_sort(terms.sort(left[i]), terms.sort(right[i])) {
            return false;
        }
    }
    true
}

/// Whether two terms are applications of one head to arguments of the same sorts, of which a table lists
/// at least one, where this is known of each.
pub fn comparable(terms: &Terms, s: TermId, t: TermId, s_is_listed: bool, t_is_listed: bool) -> bool
    requires s { s.0 < length terms.now.nodes }
    requires t { t.0 < length terms.now.nodes }
    requires s_listed { s_is_listed ≡ is_listed (tree terms.now s) }
    requires t_listed { t_is_listed ≡ is_listed (tree terms.now t) }
    ensures { result
        ≡ are_comparable terms.now.shapes terms.now.decls (tree terms.now s) (tree terms.now t) }
{
    terms.law_arena();
    let left = terms.node(s);
    let right = terms.node(t);
    let one_head = same_head(left.head, right.head);
    let one_sort = same_sorts(terms, left.args.as_slice(), right.args.as_slice());
    all_three(one_head, one_sort, some(s_is_listed, t_is_listed))
}

fn some(a: bool, b: bool) -> bool
    ensures { result ≡ (a || b) }
{
    a || b
}

fn all_three(a: bool, b: bool, c: bool) -> bool
    ensures { result ≡ (a && (b && c)) }
{
    a && b && c
}
