// Entering the terms that were added and are not entered.

ghost use Rattle.std.specs.Prelude.{◌≡◌, ◌<◌, ◌≤◌, ◌+◌, suc, drop, length, slice_get, Some};
ghost use Rattle.spv_logic.specs.declared.conditions.TermId.{TermId};
ghost use Rattle.spv_term.specs.declared.nodes.Node.{Node};
ghost use Rattle.spv_union_find.specs.signatures.Signatures.{cells_of};
ghost use Rattle.spv_congruence.specs.Graph.{HasNode, IsUpTo, weight_of};
ghost use Rattle.spv_congruence.specs.Keep.{graph, Fits, EntersNext, EntersRest};

use crate::facts::Equal;
use crate::kept::Kept;
use spv_term::TermId;
use spv_union_find::classes::Cause;

// The term at a place.
pub(crate) fn term_at(terms: &[TermId], place: usize) -> TermId
    requires { place < length terms.now }
    ensures { slice_get terms.now place ≡ Some result }
{
    terms[place]
}

impl Kept {
    // How many terms were added.
    pub(crate) fn terms(&self) -> usize
        ensures { result ≡ length self.now.added }
    {
        self.added.as_slice().len()
    }

    // The term at a place of the list.
    pub(crate) fn term_at(&self, place: usize) -> TermId
        requires { place < length self.now.added }
        ensures { slice_get self.now.added place ≡ Some result }
    {
        term_at(self.added.as_slice(), place)
    }

    // Enters the next term of the list. It takes no memory.
    pub(crate) fn enter_next(&mut self, place: usize)
        requires fits { Fits self.old }
        requires graph { IsUpTo (graph self.old) place }
        requires within { place < length self.old.added }
        requires room { (t : TermId) (n : Node) → slice_get self.old.added place ≡ Some t → HasNode self.old.nodes t n → cells_of self.old.table.rows + suc (length n.args) ≤ self.old.table.room }
        ensures fits { Fits self.new }
        ensures next { EntersNext self.old self.new place }
    {
        self.law_joins();
        let t = self.term_at(place);
        let first = self.enter(t).unwrap();
        if self.label(first) != self.label(t) {
            let join = self.join_of(Equal {
                left: t,
                right: first,
                cause: Cause::Congruent,
            });
            self.add_join(join);
        }
    }

    // Enters the terms of the list from a place on. It takes no memory.
    pub(crate) fn enter_rest(&mut self, from: usize)
        requires fits { Fits self.old }
        requires graph { IsUpTo (graph self.old) from }
        requires room { cells_of self.old.table.rows + weight_of self.old.nodes (drop from self.old.added) ≤ self.old.table.room }
        ensures fits { Fits self.new }
        ensures rest { EntersRest self.old self.new from }
    {
        for place in from..self.terms() {
            self.enter_next(place);
        }
    }
}
