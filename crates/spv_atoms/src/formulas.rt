//! The atoms of formulas.

ghost use Rattle.std.specs.Prelude.{◌≡◌, ◌<◌, map, length, OnOk, IfOk};
ghost use Rattle.spv_term.specs.Arena.{AllBelow, tree, IsArena};
ghost use Rattle.spv_atoms.specs.Atoms as spec;
ghost use Rattle.spv_atoms.specs.Atoms.{is_truth, with_atoms};
ghost use Rattle.spv_atoms.specs.Order.{SameMembers, IsAdded, added};

use crate::sets::TermSet;
use crate::walk::{Through, in_order, is_connective, is_formula};
use spv_term::{Head, TermId, Terms};
use std::alloc::{AllocError, Global};

// Whether a head is TRUE or FALSE.
fn is_fixed(head: Head) -> bool
    ensures { result ≡ spec.is_fixed head }
{
    match head {
        Head::True | Head::False => true,
        _ => false,
    }
}

// Whether a term is TRUE or FALSE.
fn is_truth_value(terms: &Terms, t: TermId) -> bool
    requires { t.0 < length terms.now.nodes }
    ensures { result ≡ spec.is_truth_value (tree terms.now t) }
{
    terms.law_arena();
    is_fixed(terms.node(t).head)
}

/// Whether a term is an atom: of sort Bool, no connective, and neither TRUE nor FALSE.
pub fn is_atom(terms: &Terms, t: TermId) -> bool
    requires { t.0 < length terms.now.nodes }
    ensures { result ≡ spec.is_atom (is_truth terms.now.shapes terms.now.decls) (tree terms.now t) }
{
    is_formula(terms, t) && !is_connective(terms, t) && !is_truth_value(terms, t)
}

// The set of these terms.
fn set_of(alloc: Global, ids: &[TermId]) -> Result<TermSet, AllocError>
    ensures { IfOk result (λ set. SameMembers set ids.now) }
{
    let mut set = TermSet::new(alloc);
    for t in ids {
        set.add(*t)?;
    }
    Ok(set)
}

// Adds a term where it is an atom that is not known.
fn add_atom(
    terms: &Terms,
    t: TermId,
    known: &mut TermSet,
    out: &mut Vec<TermId>,
) -> Result<(), AllocError>
    requires t { t.0 < length terms.now.nodes }
    requires out { AllBelow (length terms.now.nodes) out.old.items }
    requires known { SameMembers known.old out.old.items }
    ensures { OnOk result (IsAdded terms.now t out.old.items known.new out.new.items) }
{
    terms.law_arena();
    if !is_atom(terms, t) {
        return Ok(());
    }
    if known.has(t) {
        return Ok(());
    }
    known.add(t)?;
    out.push(t)?;
    Ok(())
}

// Adds those of these terms that are atoms and not known.
fn add_atoms(
    terms: &Terms,
    found: &[TermId],
    known: &mut TermSet,
    out: &mut Vec<TermId>,
) -> Result<(), AllocError>
    requires found { AllBelow (length terms.now.nodes) found.now }
    requires out { AllBelow (length terms.now.nodes) out.old.items }
    requires known { SameMembers known.old out.old.items }
    ensures atoms { OnOk result (map (tree terms.now) out.new.items ≡ added terms.now out.old.items found.now) }
    ensures in_range { OnOk result (AllBelow (length terms.now.nodes) out.new.items) }
{
    terms.law_arena();
    for t in found {
        add_atom(terms, *t, known, out)?;
    }
    Ok(())
}

/// Adds the atoms of a formula that are not there yet, in the order in which they first stand in it.
/// Each different subterm is visited once.
pub fn atoms(terms: &Terms, f: TermId, out: &mut Vec<TermId>) -> Result<(), AllocError>
    requires f { f.0 < length terms.now.nodes }
    requires out { AllBelow (length terms.now.nodes) out.old.items }
    ensures atoms { OnOk result (map (tree terms.now) out.new.items
        ≡ with_atoms (is_truth terms.now.shapes terms.now.decls) (map (tree terms.now) out.old.items) (tree terms.now f)) }
    ensures in_range { OnOk result (AllBelow (length terms.now.nodes) out.new.items) }
{
    terms.law_arena();
    let alloc = *out.allocator();
    let found = in_order(alloc, terms, Through::Connectives, f)?;
    let mut known = set_of(alloc, out.as_slice())?;
    add_atoms(terms, found.as_slice(), &mut known, out)
}
