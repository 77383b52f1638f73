// Adding a term with all its parts.

ghost use Rattle.std.specs.Prelude.{◌≡◌, ◌<◌, ◌≤◌, ◌++◌, [], ◌∷◌, ℕ, false, IsTrue, IfSome, IfNone, OnOk, OnErr, Some, length, slice_get};
ghost use Rattle.spv_congruence.specs.Graph.{IsGraph};
ghost use Rattle.spv_congruence.specs.Keep.{graph, AreNodes, Fits, HasGrown, IsMissing, IsNode};
ghost use Rattle.spv_congruence.specs.Told.{AddsParts, IsOf};
ghost use Rattle.spv_congruence.specs.Walk.{IsMissingAt, Steps};

use crate::entries::term_at;
use crate::kept::{Kept, is_node};
use spv_term::{TermId, Terms};
use std::alloc::AllocError;

impl Kept {
    // Where the first of these terms stands, from a place on, that was not added.
    fn missing_from(&self, args: &[TermId], from: usize) -> Option<usize>
        ensures missing { IfSome result (IsMissingAt self.now.nodes args.now) }
        ensures none { IfNone result ((i : ℕ) (u : TermId) → from ≤ i → slice_get args.now i ≡ Some u → IsNode self.now.nodes u) }
    {
        for place in from..args.len() {
            if !self.has(term_at(args, place)) {
                return Some(place);
            }
        }
        None
    }

    // Where one of these terms stands that was not added; it is looked for from a place on first.
    fn missing(&self, args: &[TermId], from: usize) -> Option<usize>
        ensures missing { IfSome result (IsMissingAt self.now.nodes args.now) }
        ensures none { IfNone result (AreNodes self.now.nodes args.now) }
    {
        match self.missing_from(args, from) {
            Some(place) => Some(place),
            None => self.missing_from(args, 0),
        }
    }

    // Whether a term was added.
    pub(crate) fn has(&self, t: TermId) -> bool
        ensures there { IsTrue result → IsNode self.now.nodes t }
        ensures missing { result ≡ false → IsMissing self.now.nodes t }
    {
        is_node(self.nodes.as_slice(), t)
    }

    // Adds a term, or goes on to an argument that was not added. Its arguments before a place were added when the path came by, and for
    // each term of the path that place is noted.
    fn step(
        &mut self,
        terms: &Terms,
        path: &mut Vec<TermId>,
        places: &mut Vec<usize>,
        x: TermId,
        from: usize,
    ) -> Result<(), AllocError>
        requires fits { Fits self.old }
        requires graph { IsGraph (graph self.old) }
        requires of { IsOf terms.now (graph self.old) }
        requires within { x.0 < length terms.now.nodes }
        requires missing { IsMissing self.old.nodes x }
        ensures ok { OnOk result (Steps terms.now self.old self.new path.old.items x path.new.items) }
        ensures err { OnErr result (graph self.new ≡ graph self.old) }
        ensures fits { Fits self.new }
        ensures graph { IsGraph (graph self.new) }
    {
        terms.law_arena();
        let node = terms.node(x);
        let args = node.args.as_slice();
        if let Some(place) = self.missing(args, from) {
            path.push(x)?;
            path.push(term_at(args, place))?;
            places.push(place)?;
            places.push(0)?;
            return Ok(());
        }
        self.add_one(x, node.head, args)
    }

    // Adds a term with all its parts. For want of memory some of them may be there.
    fn add_or_stop(&mut self, terms: &Terms, t: TermId) -> Result<(), AllocError>
        requires fits { Fits self.old }
        requires graph { IsGraph (graph self.old) }
        requires of { IsOf terms.now (graph self.old) }
        requires within { t.0 < length terms.now.nodes }
        ensures ok { OnOk result (IsNode self.new.nodes t) }
        ensures parts { AddsParts terms.now t (graph self.old) (graph self.new) }
        ensures grown { HasGrown (graph self.old) (graph self.new) }
        ensures of { IsOf terms.now (graph self.new) }
        ensures fits { Fits self.new }
        ensures graph { IsGraph (graph self.new) }
    {
        if self.has(t) {
            return Ok(());
        }
        terms.law_arena();
        let mut places = Vec::new(*self.added.allocator());
        let mut path = Vec::new(*self.added.allocator());
        path.push(t)?;
        while let Some(x) = path.pop() {
            let from = places.pop().unwrap_or(0);
            self.step(terms, &mut path, &mut places, x, from)?;
        }
        Ok(())
    }

    // Adds a term with all its parts. For want of memory the graph stays as it was.
    pub(crate) fn add(&mut self, terms: &Terms, t: TermId) -> Result<(), AllocError>
        requires fits { Fits self.old }
        requires graph { IsGraph (graph self.old) }
        requires of { IsOf terms.now (graph self.old) }
        requires within { t.0 < length terms.now.nodes }
        ensures ok { OnOk result (IsNode self.new.nodes t) }
        ensures parts { OnOk result (AddsParts terms.now t (graph self.old) (graph self.new)) }
        ensures of { OnOk result (IsOf terms.now (graph self.new)) }
        ensures err { OnErr result (graph self.new ≡ graph self.old) }
        ensures fits { Fits self.new }
        ensures graph { IsGraph (graph self.new) }
    {
        let level = self.level();
        let places = self.places();
        match self.add_or_stop(terms, t) {
            Ok(()) => Ok(()),
            Err(fault) => {
                self.take_back(level, places);
                Err(fault)
            }
        }
    }
}
