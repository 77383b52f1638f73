// Terms that are added where they pass a test and are new.

ghost use Rattle.std.specs.Prelude.{◌≡◌, ◌<◌, ◌&&◌, not, map, length, OnOk, if◌then◌else◌};
ghost use Rattle.std.specs.List.{flat_map};
ghost use Rattle.spv_term.specs.Arena.{AllBelow, tree};
ghost use Rattle.spv_atoms.specs.Atoms as spec;
ghost use Rattle.spv_atoms.specs.Atoms.{is_truth, with_terms};
ghost use Rattle.spv_atoms.specs.Order.{passing, with_id};
ghost use Rattle.spv_search_terms.specs.split_candidates.Adding.{is_asked, asked_of};

use crate::head_index::{is_connective, is_truth, is_truth_value};
use crate::subterms::IdSet;
use spv_atoms::is_atom;
use spv_term::{TermId, Terms};
use std::alloc::AllocError;

// Adds a term, where it is wanted.
fn add_if(wanted: bool, t: TermId, out: &mut IdSet) -> Result<(), AllocError>
    ensures { OnOk result (out.new ≡ (if wanted then with_id out.old t else out.old)) }
{
    if wanted { out.add(t) } else { Ok(()) }
}

fn and_not(a: bool, b: bool) -> bool
    ensures { result ≡ (a && not b) }
{
    a && !b
}

/// Adds those of these terms that are atoms.
pub(crate) fn add_atoms(terms: &Terms, found: &[TermId], out: &mut IdSet) -> Result<(), AllocError>
    requires found { AllBelow (length terms.now.nodes) found.now }
    requires out { AllBelow (length terms.now.nodes) out.old }
    ensures atoms { OnOk result (map (tree terms.now) out.new ≡ with_terms (map (tree terms.now) out.old)
        (passing (spec.is_atom (is_truth terms.now.shapes terms.now.decls)) (map (tree terms.now) found.now))) }
    ensures in_range { OnOk result (AllBelow (length terms.now.nodes) out.new) }
{
    terms.law_arena();
    for t in found {
        let wanted = is_atom(terms, *t);
        add_if(wanted, *t, out)?;
    }
    Ok(())
}

// Adds those of these terms that are of sort Bool, but not TRUE and FALSE.
fn add_truths(terms: &Terms, found: &[TermId], out: &mut IdSet) -> Result<(), AllocError>
    requires found { AllBelow (length terms.now.nodes) found.now }
    requires out { AllBelow (length terms.now.nodes) out.old }
    ensures truths { OnOk result (map (tree terms.now) out.new ≡ with_terms (map (tree terms.now) out.old)
        (passing (is_asked (is_truth terms.now.shapes terms.now.decls)) (map (tree terms.now) found.now))) }
    ensures in_range { OnOk result (AllBelow (length terms.now.nodes) out.new) }
{
    terms.law_arena();
    for t in found {
        let truth = is_truth(terms, *t);
        let wanted = and_not(truth, is_truth_value(terms, *t));
        add_if(wanted, *t, out)?;
    }
    Ok(())
}

// Adds the arguments of sort Bool of a term, where it is no connective.
fn add_arguments(terms: &Terms, t: TermId, out: &mut IdSet) -> Result<(), AllocError>
    requires t { t.0 < length terms.now.nodes }
    requires out { AllBelow (length terms.now.nodes) out.old }
    ensures asked { OnOk result (map (tree terms.now) out.new ≡ with_terms (map (tree terms.now) out.old)
        (asked_of (is_truth terms.now.shapes terms.now.decls) (tree terms.now t))) }
    ensures in_range { OnOk result (AllBelow (length terms.now.nodes) out.new) }
{
    terms.law_arena();
    if is_connective(terms, t) {
        return Ok(());
    }
    add_truths(terms, terms.node(t).args.as_slice(), out)
}

/// Adds the arguments of sort Bool of those of these terms that are no connectives.
pub(crate) fn add_questions(
    terms: &Terms,
    found: &[TermId],
    out: &mut IdSet,
) -> Result<(), AllocError>
    requires found { AllBelow (length terms.now.nodes) found.now }
    requires out { AllBelow (length terms.now.nodes) out.old }
    ensures asked { OnOk result (map (tree terms.now) out.new ≡ with_terms (map (tree terms.now) out.old)
        (flat_map (asked_of (is_truth terms.now.shapes terms.now.decls)) (map (tree terms.now) found.now))) }
    ensures in_range { OnOk result (AllBelow (length terms.now.nodes) out.new) }
{
    terms.law_arena();
    for t in found {
        add_arguments(terms, *t, out)?;
    }
    Ok(())
}
