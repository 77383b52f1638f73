// Taking away the terms that were added last.

ghost use Rattle.std.specs.Prelude.{◌≡◌, None, length, slice_set};
ghost use Rattle.spv_congruence.specs.Keep.{AreEmptied, IsTakenBack};

use crate::entries::term_at;
use crate::facts::Level;
use crate::kept::Kept;
use spv_term::{Node, TermId};

// Empties the place of a term, if there is one.
fn empty_place(nodes: &mut Vec<Option<Node>>, t: TermId)
    ensures { nodes.new.items ≡ slice_set nodes.old.items t.0 None }
{
    let place = t.0 as usize;
    if place < nodes.as_slice().len() {
        nodes[place] = None;
    }
}

// Empties the places of the terms from a place of the list on.
fn empty_places(nodes: &mut Vec<Option<Node>>, added: &[TermId], from: usize)
    ensures { AreEmptied nodes.old.items added.now from (length added.now) nodes.new.items }
{
    for place in from..added.len() {
        empty_place(nodes, term_at(added, place));
    }
}

impl Kept {
    // How many places there are for nodes.
    pub(crate) fn places(&self) -> usize
        ensures { result ≡ length self.now.nodes }
    {
        self.nodes.as_slice().len()
    }

    // Takes the terms away that were added since the graph was so far, when there were so many places. It takes no memory.
    pub(crate) fn take_back(&mut self, level: Level, places: usize)
        ensures { IsTakenBack self.old level places self.new }
    {
        empty_places(&mut self.nodes, self.added.as_slice(), level.added);
        self.nodes.truncate(places);
        self.added.truncate(level.added);
        self.classes.cut(level.joins);
        self.table.cut(level.rows);
    }
}
