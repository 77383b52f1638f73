// A heuristic to a search.

ghost use Rattle.std.specs.Prelude.{◌≡◌, ◌<◌, length, IfOk, IfSome};
ghost use Rattle.spv_term.specs.Arena.{AllBelow};
ghost use Rattle.spv_decisions.specs.literal_lookup.Facts.{AreThere};
ghost use Rattle.spv_decisions.specs.heuristic.Guiding.{IsAdvice, IsHeuristic, MayBeSplit};

use crate::heuristic::mirrors::{mirrored_value, mirrors};
use crate::heuristic::ranking::ranked;
use crate::heuristic::splitting::{first_at, split_at};
use spv_assignments::partial_assignment::Known;
use spv_atoms::{TermSet, atoms, connected, values_in_order};
use spv_search_terms::head_index::is_connective;
use spv_search_terms::subterms::IdSet;
use spv_term::{Condition, TermId, Terms};
use std::alloc::{AllocError, Global};

/// What a heuristic advises on a path on which nothing follows.
#[derive(Clone, Copy, Debug)]
pub enum Advice {
    /// To split on this atom, which stands in a formula that is not decided by the values of its atoms.
    Split(TermId),
    /// All formulas are decided so: to try the table of both sides.
    Decided,
    /// Nothing: a formula is not decided, and none of its atoms may be split on.
    Nothing,
}

// A formula, and its atoms, by their places among those of the search.
#[derive(Drop)]
pub(crate) struct Formula {
    term: TermId,
    atoms: Vec<usize>,
}

/// A heuristic to a search over a condition: its formulas, first the one that the search is about and the others by how near to it their terms are,
/// each with its atoms.
#[derive(Drop)]
pub struct Heuristic {
    order: TermSet,
    mirrors: Vec<Option<TermId>>,
    formulas: Vec<Formula>,
}

// Places in a list of atoms.
fn set_of(alloc: Global, atoms: &[TermId]) -> Result<IdSet, AllocError> {
    let mut set = IdSet::new(alloc);
    for t in atoms {
        set.add(*t)?;
    }
    Ok(set)
}

// The places of the atoms of a formula.
fn places_of(alloc: Global, terms: &Terms, set: &IdSet, f: TermId) -> Result<Vec<usize>, AllocError>
    requires { f.0 < length terms.now.nodes }
{
    let mut found = Vec::new(alloc);
    atoms(terms, f, &mut found)?;
    let mut places = Vec::new(alloc);
    for t in found.as_slice() {
        if let Some(place) = set.place(*t) {
            places.push(place)?;
        }
    }
    Ok(places)
}

// These formulas with the places of their atoms.
fn with_places(
    alloc: Global,
    terms: &Terms,
    set: &IdSet,
    formulas: &[TermId],
) -> Result<Vec<Formula>, AllocError>
    requires { AllBelow (length terms.now.nodes) formulas.now }
{
    let mut list = Vec::new(alloc);
    for f in formulas {
        let atoms = places_of(alloc, terms, set, *f)?;
        list.push(Formula { term: *f, atoms })?;
    }
    Ok(list)
}

// The values of terms that are no connectives. An equation without a value has that of the same sides the other way round, which says the same.
fn own_values(
    alloc: Global,
    terms: &Terms,
    ids: &[TermId],
    mirrors: &[Option<TermId>],
    values: &[Option<bool>],
) -> Result<Vec<Option<bool>>, AllocError>
    requires { AllBelow (length terms.now.nodes) ids.now }
    ensures { IfOk result (λ own. length own.items ≡ length ids.now) }
{
    let mut own = Vec::new(alloc);
    for t in ids {
        let value = if is_connective(terms, *t) {
            None
        } else {
            let mirror = mirrors.get(own.len()).copied().flatten();
            mirrored_value(values, *t, mirror)
        };
        own.push(value)?;
    }
    Ok(own)
}

impl Heuristic {
    /// A heuristic to a search over a condition with these atoms, which is about its goal, where `focus` is 0, or about the hypothesis of this
    /// number from 1.
    pub fn new(
        alloc: Global,
        terms: &Terms,
        condition: &Condition,
        atoms: &[TermId],
        focus: usize,
    ) -> Result<Heuristic, AllocError>
        requires given { AllBelow (length terms.now.nodes) condition.now.given }
        requires goal { condition.now.goal.0 < length terms.now.nodes }
        ensures { IfOk result (IsHeuristic terms.now) }
    {
        let formulas = ranked(alloc, terms, condition, focus)?;
        let order = connected(alloc, terms, formulas.as_slice())?;
        let mirrors = mirrors(alloc, terms, order.as_slice())?;
        let set = set_of(alloc, atoms)?;
        let formulas = with_places(alloc, terms, &set, formulas.as_slice())?;
        Ok(Heuristic {
            order,
            mirrors,
            formulas,
        })
    }

    // Whether a formula, or an atom of one, is decided by the values of atoms.
    fn is_decided(&self, found: &[Option<bool>], f: TermId) -> bool {
        match self.order.place(f) {
            Some(place) => found.get(place).is_some_and(|value| value.is_some()),
            None => false,
        }
    }

    // The first atom of a formula that is not decided and may be split on; else the first one that may be.
    fn atom_of(
        &self,
        terms: &Terms,
        atoms: &[TermId],
        values: &[Option<bool>],
        known: &[Known],
        found: &[Option<bool>],
        formula: &Formula,
    ) -> Option<TermId>
        requires atoms { AllBelow (length terms.now.nodes) atoms.now }
        requires known { AreThere terms.now known.now }
        ensures { IfSome result (MayBeSplit terms.now atoms.now values.now known.now) }
    {
        for place in formula.atoms.as_slice() {
            let is_open = atoms
                .get(*place)
                .is_some_and(|t| !self.is_decided(found, *t));
            if is_open {
                if let Some(t) = split_at(terms, atoms, values, known, *place) {
                    return Some(t);
                }
            }
        }
        first_at(terms, atoms, values, known, formula.atoms.as_slice())
    }

    // What is advised, where these values were found from those of the atoms.
    fn look(
        &self,
        terms: &Terms,
        atoms: &[TermId],
        values: &[Option<bool>],
        known: &[Known],
        found: &[Option<bool>],
    ) -> Advice
        requires atoms { AllBelow (length terms.now.nodes) atoms.now }
        requires known { AreThere terms.now known.now }
        ensures { IsAdvice terms.now atoms.now values.now known.now result }
    {
        for formula in self.formulas.as_slice() {
            if !self.is_decided(found, formula.term) {
                return match self.atom_of(terms, atoms, values, known, found, formula) {
                    Some(t) => Advice::Split(t),
                    None => Advice::Nothing,
                };
            }
        }
        Advice::Decided
    }

    /// What is advised on a path with these values and these known facts, on which nothing follows.
    pub fn advise(
        &self,
        alloc: Global,
        terms: &Terms,
        atoms: &[TermId],
        values: &[Option<bool>],
        known: &[Known],
    ) -> Result<Advice, AllocError>
        requires heuristic { IsHeuristic terms.now self.now }
        requires atoms { AllBelow (length terms.now.nodes) atoms.now }
        requires known { AreThere terms.now known.now }
        ensures { IfOk result (IsAdvice terms.now atoms.now values.now known.now) }
    {
        let own = own_values(
            alloc,
            terms,
            self.order.as_slice(),
            self.mirrors.as_slice(),
            values,
        )?;
        let found = values_in_order(alloc, terms, &self.order, own.as_slice())?;
        Ok(self.look(terms, atoms, values, known, found.as_slice()))
    }
}
