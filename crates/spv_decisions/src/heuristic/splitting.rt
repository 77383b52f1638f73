// Whether an atom may be split on.

ghost use Rattle.std.specs.Prelude.{◌≡◌, ◌<◌, length, IfSome};
ghost use Rattle.spv_term.specs.Arena.{AllBelow};
ghost use Rattle.spv_decisions.specs.literal_lookup.Facts.{AreThere};
ghost use Rattle.spv_decisions.specs.heuristic.Guiding.{MayBeSplit};

use crate::decision::{Choice, choose};
use spv_assignments::partial_assignment::Known;
use spv_term::{TermId, Terms};

/// The atom at a place, if it may be split on.
pub(crate) fn split_at(
    terms: &Terms,
    atoms: &[TermId],
    values: &[Option<bool>],
    known: &[Known],
    place: usize,
) -> Option<TermId>
    requires atoms { AllBelow (length terms.now.nodes) atoms.now }
    requires known { AreThere terms.now known.now }
    ensures { IfSome result (MayBeSplit terms.now atoms.now values.now known.now) }
{
    if place >= atoms.len() {
        return None;
    }
    let one = [atoms[place]];
    match choose(terms, &one, values, known) {
        Choice::Split(t) => Some(t),
        Choice::Full => None,
    }
}

/// The first of the atoms at these places that may be split on.
pub(crate) fn first_at(
    terms: &Terms,
    atoms: &[TermId],
    values: &[Option<bool>],
    known: &[Known],
    places: &[usize],
) -> Option<TermId>
    requires atoms { AllBelow (length terms.now.nodes) atoms.now }
    requires known { AreThere terms.now known.now }
    ensures { IfSome result (MayBeSplit terms.now atoms.now values.now known.now) }
{
    for place in places {
        if let Some(t) = split_at(terms, atoms, values, known, *place) {
            return Some(t);
        }
    }
    None
}
