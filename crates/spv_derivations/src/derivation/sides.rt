// Entries that state an equation by their own form.

ghost use Rattle.std.specs.Prelude.{◌≡◌, slice_get};
ghost use Rattle.spv_derivations.specs.derivation.Sides as spec;

use crate::derivation::entries::{Entry, Part};
use spv_atoms::{Relation, Stated, Step};
use spv_term::{Head, Node, TermId, Terms};

// The sides of a node that is an equation.
fn sides_under(node: &Node) -> Option<(TermId, TermId)>
    ensures { result ≡ spec.sides_under node.now.head node.now.args }
{
    match node.head {
        Head::Eq => two_of(node.args.as_slice()),
        _ => None,
    }
}

fn two_of(args: &[TermId]) -> Option<(TermId, TermId)>
    ensures { result ≡ spec.two_of args.now }
{
    match args {
        [s, t] => Some((*s, *t)),
        _ => None,
    }
}

// The sides of a term that is an equation.
fn term_sides(terms: &Terms, t: TermId) -> Option<(TermId, TermId)>
    ensures { result ≡ spec.node_sides (slice_get terms.now.nodes t.0) }
{
    if t.0 >= terms.len() {
        return None;
    }
    sides_under(terms.node(t))
}

// The sides of the equation that a step states.
fn step_sides(step: &Step) -> Option<(TermId, TermId)>
    ensures { result ≡ spec.step_sides step.now }
{
    match step {
        Step::Refl(t) => Some((*t, *t)),
        Step::Cong(t, u, _) => Some((*t, *u)),
        Step::Linear(Relation::Equal(s, t), _, _) => Some((*s, *t)),
        Step::Eval(Stated::Same(s, t), _) => Some((*s, *t)),
        _ => None,
    }
}

// The sides of the equation that an entry states.
fn entry_sides(terms: &Terms, entry: &Entry) -> Option<(TermId, TermId)>
    ensures { result ≡ spec.entry_sides terms.now entry.now }
{
    match entry {
        Entry::Told(t, Part::True, _) => term_sides(terms, *t),
        Entry::Told(_, _, _) => None,
        Entry::Derived(step) => step_sides(step),
    }
}

/// The sides of the equation that the entry of a number states.
pub(crate) fn sides_at(terms: &Terms, entries: &[Entry], k: u32) -> Option<(TermId, TermId)>
    ensures { result ≡ spec.sides_at terms.now entries.now k }
{
    if k == 0 {
        return None;
    }
    match entries.get(k as usize - 1) {
        Some(entry) => entry_sides(terms, entry),
        None => None,
    }
}
