// Sets of terms in the order in which they were added.

ghost use Rattle.std.specs.Prelude.{◌≡◌, [], length, OnOk};
ghost use Rattle.std.specs.List.{list_any, position};
ghost use Rattle.spv_atoms.specs.Order.{same_id, with_id};

use indexmap::IndexSet;
use spv_term::TermId;
use std::alloc::{AllocError, Global};
use std::marker::Model;

/// Terms, each once, in the order in which they were added. A look-up goes by a hash.
#[derive(Drop)]
pub struct IdSet {
    ids: IndexSet<TermId>,
}

impl Model for IdSet {
    ghost use Rattle.std.specs.Prelude.{List};
    ghost use Rattle.spv_logic.specs.declared.conditions.TermId.{TermId};

    ghost Value = { List TermId };

    ghost view = { λ s. s.ids.keys };
}

impl IdSet {
    /// The empty set.
    pub fn new(alloc: Global) -> IdSet
        ensures { result ≡ [] }
    {
        IdSet {
            ids: IndexSet::new(alloc),
        }
    }

    /// Whether a term is in the set.
    pub fn has(&self, t: TermId) -> bool
        ensures { result ≡ list_any (same_id t) self.now }
    {
        self.ids.contains(&t)
    }

    /// Puts a term at the end, if it is new.
    pub fn add(&mut self, t: TermId) -> Result<(), AllocError>
        ensures { OnOk result (self.new ≡ with_id self.old t) }
    {
        self.ids.insert_full(t)?;
        Ok(())
    }

    /// The place of a term, from 0.
    pub fn place(&self, t: TermId) -> Option<usize>
        ensures { result ≡ position (same_id t) self.now }
    {
        self.ids.get_index_of(&t)
    }

    /// The terms in order.
    pub fn as_slice(&self) -> &[TermId]
        ensures { result.now ≡ self.now }
    {
        self.ids.as_slice()
    }
}
