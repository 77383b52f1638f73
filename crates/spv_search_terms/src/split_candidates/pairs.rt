// Equations of each two comparable terms of a list.

ghost use Rattle.std.specs.Prelude.{◌≡◌, ◌<◌, ◌+◌, map, drop, length, Err, OnOk};
ghost use Rattle.std.specs.List.{flat_map};
ghost use Rattle.spv_term.specs.declared.nodes.TermFault.TheVariants.{Size};
ghost use Rattle.spv_term.specs.Arena.{AllBelow, tree, Extends};
ghost use Rattle.spv_models.specs.leaf_models.Atoms.{pair_equations, all_equations};
ghost use Rattle.spv_models.specs.leaf_models.Subterms.{is_listed};
ghost use Rattle.spv_search_terms.specs.subterms.Gaining.{Stops};
ghost use Rattle.spv_search_terms.specs.head_index.Chains.{heads, AreChained};
ghost use Rattle.spv_search_terms.specs.split_candidates.Equating.{at, GainsAtoms};

use crate::split_candidates::equations::equate_if_comparable;
use crate::subterms::IdSet;
use spv_term::{TermFault, TermId, Terms};

// Makes the equations of the term at a place with the later ones of its head.
fn equate_with_later(
    terms: &mut Terms,
    found: &[TermId],
    next: &[usize],
    listed: &[bool],
    place: usize,
    out: &mut IdSet,
) -> Result<(), TermFault>
    requires place { place < length found.now }
    requires found { AllBelow (length terms.old.nodes) found.now }
    requires next { AreChained (heads terms.old found.now) next.now }
    requires listed { listed.now ≡ map (λ t. is_listed (tree terms.old t)) found.now }
    requires out { AllBelow (length terms.old.nodes) out.old }
    ensures gains { OnOk result (GainsAtoms terms.old out.old terms.new out.new
        (flat_map (pair_equations terms.old.shapes terms.old.decls (tree terms.old (at found.now place)))
        (drop (place + 1) (map (tree terms.old) found.now)))) }
    ensures grows { Extends terms.old terms.new }
    ensures size { result ≡ Err Size → Stops terms.old
        (flat_map (pair_equations terms.old.shapes terms.old.decls (tree terms.old (at found.now place)))
        (drop (place + 1) (map (tree terms.old) found.now))) }
{
    let mut later = next[place];
    while later < found.len() {
        equate_if_comparable(
            terms,
            found[place],
            found[later],
            listed[place],
            listed[later],
            out,
        )?;
        later = next[later];
    }
    Ok(())
}

/// Makes the equations of each two comparable terms of a list: those of the first one with all others come
/// first.
pub(crate) fn equate_all(
    terms: &mut Terms,
    found: &[TermId],
    next: &[usize],
    listed: &[bool],
    out: &mut IdSet,
) -> Result<(), TermFault>
    requires found { AllBelow (length terms.old.nodes) found.now }
    requires next { AreChained (heads terms.old found.now) next.now }
    requires listed { listed.now ≡ map (λ t. is_listed (tree terms.old t)) found.now }
    requires out { AllBelow (length terms.old.nodes) out.old }
    ensures gains { OnOk result (GainsAtoms terms.old out.old terms.new out.new
        (all_equations terms.old.shapes terms.old.decls (map (tree terms.old) found.now))) }
    ensures grows { Extends terms.old terms.new }
    ensures size { result ≡ Err Size → Stops terms.old
        (all_equations terms.old.shapes terms.old.decls (map (tree terms.old) found.now)) }
{
    for i in 0..found.len() {
        equate_with_later(terms, found, next, listed, i, out)?;
    }
    Ok(())
}
