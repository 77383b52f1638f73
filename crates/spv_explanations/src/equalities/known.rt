// Equations that were shown, by their sides.

ghost use Rattle.std.specs.Prelude.{◌≡◌, [], OnOk};
ghost use Rattle.indexmap.specs.IndexMap.{insert_entry};
ghost use Rattle.spv_explanations.specs.equalities.Known.{number_of, pair, same_pair};

use indexmap::IndexMap;
use spv_term::TermId;
use std::alloc::{AllocError, Global};
use std::marker::Model;

/// Two terms.
#[derive(Clone, Copy, PartialEq, Eq, Hash, Debug)]
pub(crate) struct Pair {
    pub(crate) left: TermId,
    pub(crate) right: TermId,
}

/// Pairs of terms, each with the number of the fact that they are equal. A look-up goes by a hash.
#[derive(Drop)]
pub(crate) struct Known {
    numbers: IndexMap<Pair, u32>,
}

impl Model for Known {
    ghost use Rattle.std.specs.Prelude.{List, ℕ};
    ghost use Rattle.spv_explanations.specs.declared.equalities.known.Pair.{Pair};

    ghost Value = { List (Pair × ℕ) };

    ghost view = { λ k. k.numbers.entries };
}

impl Known {
    // No pairs.
    pub(crate) fn new(alloc: Global) -> Known
        ensures { result ≡ [] }
    {
        Known {
            numbers: IndexMap::new(alloc),
        }
    }

    // The number of a pair.
    pub(crate) fn number(&self, left: TermId, right: TermId) -> Option<u32>
        ensures { result ≡ number_of self.now left right }
    {
        self.numbers.get(&Pair { left, right }).copied()
    }

    // Gives a pair its number.
    pub(crate) fn insert(
        &mut self,
        left: TermId,
        right: TermId,
        number: u32,
    ) -> Result<(), AllocError>
        ensures { OnOk result (self.new ≡ insert_entry same_pair self.old (pair left right) number) }
    {
        self.numbers.insert(Pair { left, right }, number)?;
        Ok(())
    }
}
