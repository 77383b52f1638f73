// The first of the terms that are the same.

ghost use Rattle.std.specs.Prelude.{◌≡◌, [], ◌∷◌, ◌++◌, length, true, false, IfOk, OnOk};
ghost use Rattle.spv_congruence.specs.Graph.{label_of};
ghost use Rattle.spv_congruence.specs.Keep.{IsNode};
ghost use Rattle.spv_branch_theory.specs.model_construction.Firsts.{AreFirsts, HasNodes, IsFirstSeen, place_in, PutsPlace};

use indexmap::IndexMap;
use spv_congruence::Graph;
use spv_term::TermId;
use std::alloc::{AllocError, Global};
use std::marker::Model;

/// A place for each of some classes. A look-up goes by a hash.
#[derive(Drop)]
pub(crate) struct Places {
    entries: IndexMap<usize, usize>,
}

impl Model for Places {
    ghost use Rattle.std.specs.Prelude.{List, ℕ};

    ghost Value = { List (ℕ × ℕ) };

    ghost view = { λ m. m.entries.entries };
}

impl Places {
    // No places.
    pub(crate) fn new(alloc: Global) -> Places
        ensures { result ≡ [] }
    {
        Places {
            entries: IndexMap::new(alloc),
        }
    }

    // The place of a class.
    pub(crate) fn get(&self, class: usize) -> Option<usize>
        ensures { result ≡ place_in self.now class }
    {
        self.entries.get(&class).copied()
    }

    // Gives a class this place.
    pub(crate) fn put(&mut self, class: usize, place: usize) -> Result<(), AllocError>
        ensures { OnOk result (PutsPlace class place self.old self.new) }
    {
        self.entries.insert(class, place)?;
        Ok(())
    }

    // The place of a class; this one, if it has none yet.
    pub(crate) fn first(&mut self, class: usize, place: usize) -> Result<usize, AllocError>
        ensures { IfOk result (IsFirstSeen class place self.old self.new) }
    {
        match self.get(class) {
            Some(first) => Ok(first),
            None => {
                self.put(class, place)?;
                Ok(place)
            }
        }
    }
}

fn push(places: &mut Vec<usize>, place: usize) -> Result<(), AllocError>
    ensures { OnOk result (places.new.items ≡ places.old.items ++ place ∷ []) }
{
    places.push(place)?;
    Ok(())
}

// The first place of the class of a term that is flagged; its own place, where it is not.
fn first_of(
    graph: &Graph,
    seen: &mut Places,
    t: TermId,
    flag: bool,
    place: usize,
) -> Result<usize, AllocError>
    requires node { flag ≡ true → IsNode graph.now.nodes t }
    ensures flagged { IfOk result (λ first. flag ≡ true → IsFirstSeen (label_of graph.now.joins t) place seen.old seen.new first) }
    ensures other { OnOk result (flag ≡ false → seen.new ≡ seen.old) }
{
    if !flag {
        return Ok(place);
    }
    let class = graph.class_of(t);
    seen.first(class.0, place)
}

/// Beside each of these terms that is flagged, the place of the first one that is flagged and the same.
pub(crate) fn firsts(
    alloc: Global,
    graph: &Graph,
    ids: &[TermId],
    flags: &[bool],
) -> Result<Vec<usize>, AllocError>
    requires count { length flags.now ≡ length ids.now }
    requires nodes { HasNodes graph.now.nodes ids.now flags.now }
    ensures { IfOk result (λ places. AreFirsts (label_of graph.now.joins) ids.now flags.now (length ids.now) places.items) }
{
    let mut seen = Places::new(alloc);
    let mut places = Vec::new(alloc);
    for place in 0..ids.len() {
        let first = first_of(graph, &mut seen, ids[place], flags[place], place)?;
        push(&mut places, first)?;
    }
    Ok(places)
}
