// Places by heads.

ghost use Rattle.std.specs.Prelude.{◌≡◌, [], OnOk};
ghost use Rattle.spv_search_terms.specs.head_index.Chains.{place_in, PutsPlace};

use spv_term::Head;
use std::alloc::{AllocError, Global};
use std::collections::BTreeMap;
use std::marker::Model;

/// A place for each of some heads. A look-up goes by the order of heads, so that no choice of numerals makes it long.
#[derive(Drop)]
pub(crate) struct Places {
    entries: BTreeMap<Head, usize>,
}

impl Model for Places {
    ghost use Rattle.std.specs.Prelude.{List, ℕ};
    ghost use Rattle.spv_logic.specs.declared.operators.Head.{Head};

    ghost Value = { List (Head × ℕ) };

    ghost view = { λ m. m.entries.entries };
}

impl Places {
    // No places.
    pub(crate) fn new(alloc: Global) -> Places
        ensures { result ≡ [] }
    {
        Places {
            entries: BTreeMap::new(alloc),
        }
    }

    // The place of a head.
    pub(crate) fn get(&self, head: Head) -> Option<usize>
        ensures { result ≡ place_in self.now head }
    {
        self.entries.get(&head).copied()
    }

    // Gives a head this place.
    pub(crate) fn put(&mut self, head: Head, place: usize) -> Result<(), AllocError>
        ensures { OnOk result (PutsPlace head place self.old self.new) }
    {
        self.entries.insert(head, place)?;
        Ok(())
    }
}
