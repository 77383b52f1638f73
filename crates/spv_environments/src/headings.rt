// Headings by their names, and by the numbers of their routines.

ghost use Rattle.std.specs.Prelude.{◌≡◌, ◌<◌, ◌≤◌, ◌++◌, ◌∷◌, [], ℕ, List, Option, None, Some, IfNone, IfOk, IfSome, OnOk, drop, length, slice_index_or, slice_set};
ghost use Rattle.spv_environments.specs.Numbered.{numbered};
ghost use Rattle.spv_environments.specs.Views.{heading_of, headings_of};
ghost use Rattle.spv_program.specs.Lists.{found};
ghost use Rattle.spv_environments.specs.IndexedHeadings.{AreNumbered, IsLonger};

use crate::routines::Heading;
use spv_logic::RoutineId;
use spv_logic::names::Symbol;
use spv_program::ordered_map::Named;
use std::alloc::{AllocError, Global};
use std::marker::Model;

/// The headings so far, in order. Where no two routines have one number, a heading is found by it at once.
#[derive(Drop)]
pub(crate) struct IndexedHeadings {
    headings: Named<Heading>,
    places: Option<Vec<Option<usize>>>,
}

impl Model for IndexedHeadings {
    ghost use Rattle.std.specs.Prelude.{List, IfSome};
    ghost use Rattle.spv_logic.specs.declared.names.names.Symbol.{Symbol};
    ghost use Rattle.spv_environments.specs.declared.routines.Heading.{Heading};
    ghost use Rattle.spv_environments.specs.IndexedHeadings.{AreNumbered};

    ghost Value = { List (Symbol × Heading) };

    ghost view = { λ h. h.headings };

    ghost invariant = { λ h. IfSome h.places (λ v. AreNumbered h.headings v.items) };
}

// So many places at least, the further ones of nothing.
#[tactic(auto, using(crate::proofs::PlacesOfHeadings::longer_begins, crate::proofs::PlacesOfHeadings::longer_one, crate::proofs::PlacesOfHeadings::longer_ends))]
fn longer(mut places: Vec<Option<usize>>, many: usize) -> Result<Vec<Option<usize>>, AllocError>
    ghost old: { List (Option ℕ) }
    requires { places.items ≡ old }
    ensures { IfOk result (λ v. IsLonger old v.items many) }
{
    for place in places.len()..many {
        places.push(None)?;
    }
    Ok(places)
}

// The places with one heading more; none where its number is taken.
#[tactic(auto, using(crate::proofs::PlacesOfHeadings::heading_put))]
fn with_heading(
    places: Vec<Option<usize>>,
    headings: &Named<Heading>,
    name: Symbol,
    heading: &Heading,
) -> Result<Option<Vec<Option<usize>>>, AllocError>
    requires { AreNumbered headings.now places.items }
    ensures { IfOk result (λ o. IfSome o (λ v. AreNumbered (headings.now ++ (name, heading.now) ∷ []) v.items)) }
{
    let number = heading.number.0 as usize;
    let mut longer = longer(places, number + 1)?;
    if longer[number].is_some() {
        return Ok(None);
    }
    longer[number] = Some(headings.len());
    Ok(Some(longer))
}

// The places without that of a number.
#[tactic(auto, using(crate::proofs::PlacesOfHeadings::set_past))]
fn without(mut places: Vec<Option<usize>>, number: RoutineId) -> Vec<Option<usize>>
    ensures { result.items ≡ slice_set places.items number.0 None }
{
    let place = number.0 as usize;
    if place < places.len() {
        places[place] = None;
    }
    places
}

#[tactic(auto, using(crate::proofs::PlacesOfHeadings::got_past))]
fn place_of(places: &[Option<usize>], number: RoutineId) -> Option<usize>
    ensures { result ≡ slice_index_or places.now number.0 None }
{
    let place = number.0 as usize;
    if place < places.len() {
        places[place]
    } else {
        None
    }
}

impl IndexedHeadings {
    /// No headings.
    pub(crate) fn new(alloc: Global) -> IndexedHeadings
        ensures { result ≡ [] }
    {
        IndexedHeadings {
            headings: Named::new(alloc),
            places: Some(Vec::new(alloc)),
        }
    }

    /// The headings under their names.
    pub(crate) fn named(&self) -> &Named<Heading>
        ensures { result.now ≡ self.now }
    {
        &self.headings
    }

    // By going through the headings.
    #[tactic(auto, using(crate::proofs::NumberedHeadings::number_first, crate::proofs::NumberedHeadings::number_other, crate::proofs::NumberedHeadings::number_past, crate::proofs::NumberedHeadings::headings_count))]
    fn numbered_anew(&self, number: RoutineId, from: usize) -> Option<(usize, Symbol, &Heading)>
        ensures there { IfSome result (λ f. numbered number (drop from (headings_of self.now)) ≡ heading_of f.1 f.2.now ∷ numbered number (drop f.0 (headings_of self.now))) }
        ensures behind { IfSome result (λ f. from < f.0) }
        ensures within { IfSome result (λ f. f.0 ≤ length self.now) }
        ensures missing { IfNone result (numbered number (drop from (headings_of self.now)) ≡ []) }
    {
        for place in from..self.headings.len() {
            if let Some((name, heading)) = self.headings.entry(place) {
                if heading.number.0 == number.0 {
                    return Some((place + 1, name, heading));
                }
            }
        }
        None
    }

    // By the place that is listed.
    #[tactic(auto, using(crate::proofs::PlacesOfHeadings::none_listed, crate::proofs::PlacesOfHeadings::listed_before, crate::proofs::PlacesOfHeadings::listed_past, crate::proofs::PlacesOfHeadings::listed_other, crate::proofs::PlacesOfHeadings::listed_there))]
    fn numbered_listed(
        &self,
        places: &[Option<usize>],
        number: RoutineId,
        from: usize,
    ) -> Option<(usize, Symbol, &Heading)>
        requires { AreNumbered self.now places.now }
        ensures there { IfSome result (λ f. numbered number (drop from (headings_of self.now)) ≡ heading_of f.1 f.2.now ∷ numbered number (drop f.0 (headings_of self.now))) }
        ensures behind { IfSome result (λ f. from < f.0) }
        ensures within { IfSome result (λ f. f.0 ≤ length self.now) }
        ensures missing { IfNone result (numbered number (drop from (headings_of self.now)) ≡ []) }
    {
        let Some(place) = place_of(places, number) else {
            return None;
        };
        if place < from {
            return None;
        }
        if place >= self.headings.len() {
            return None;
        }
        let (name, heading) = self.headings.entry(place).unwrap();
        if heading.number.0 == number.0 {
            Some((place + 1, name, heading))
        } else {
            None
        }
    }

    /// The first heading at or behind a place, from 0, whose routine has this number: the place behind it, its name, and what
    /// else is known of it.
    pub(crate) fn numbered(
        &self,
        number: RoutineId,
        from: usize,
    ) -> Option<(usize, Symbol, &Heading)>
        ensures there { IfSome result (λ f. numbered number (drop from (headings_of self.now)) ≡ heading_of f.1 f.2.now ∷ numbered number (drop f.0 (headings_of self.now))) }
        ensures behind { IfSome result (λ f. from < f.0) }
        ensures within { IfSome result (λ f. f.0 ≤ length self.now) }
        ensures missing { IfNone result (numbered number (drop from (headings_of self.now)) ≡ []) }
    {
        match &self.places {
            Some(places) => self.numbered_listed(places.as_slice(), number, from),
            None => self.numbered_anew(number, from),
        }
    }

    /// Puts a heading behind the others, under a name that is new. After want of memory nothing is known of them.
    pub(crate) fn push(&mut self, name: Symbol, heading: Heading) -> Result<(), AllocError>
        requires new { found self.old name ≡ None }
        ensures { OnOk result (self.new ≡ self.old ++ (name, heading) ∷ []) }
    {
        let places = match self.places.take() {
            Some(places) => with_heading(places, &self.headings, name, &heading)?,
            None => None,
        };
        self.headings.insert(name, heading)?;
        self.places = places;
        Ok(())
    }

    /// Takes the last heading away.
    #[tactic(auto, using(crate::proofs::PlacesOfHeadings::heading_gone))]
    pub(crate) fn pop(&mut self) -> Option<(Symbol, Heading)>
        ensures taken { IfSome result (λ e. self.old ≡ self.new ++ e ∷ []) }
        ensures empty { IfNone result (self.old ≡ []) }
    {
        let places = self.places.take();
        let last = self.headings.pop()?;
        if let Some(places) = places {
            self.places = Some(without(places, last.1.number));
        }
        Some(last)
    }
}
