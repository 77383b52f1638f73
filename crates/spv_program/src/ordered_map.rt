//! Values under names, in the order in which they came, which contracts see as a list of pairs.

ghost use Rattle.std.specs.Prelude.{◌≡◌, ◌<◌, ◌↔◌, IfNone, [], ◌∷◌, ◌++◌, None, Some, IfSome, IsSome, IsTrue, OnOk, OnErr, is_some, length, option_copied, slice_get, take};
ghost use Rattle.spv_program.specs.Lists.{found};
ghost use Rattle.spv_program.specs.ordered_map.Entries.{AreApart};

mod joining;
mod values;

use indexmap::IndexMap;
use spv_logic::names::Symbol;
use std::alloc::{AllocError, Global};
use std::marker::Model;

/// Values under names, each name once, in the order in which they came. A look-up goes by a hash.
#[derive(Drop)]
pub struct Named<T> {
    entries: IndexMap<u32, T>,
}

impl<T> Model for Named<T> {
    ghost use Rattle.std.specs.Prelude.{List, map};
    ghost use Rattle.spv_logic.specs.declared.names.names.Symbol.{Symbol};
    ghost use Rattle.spv_program.specs.ordered_map.Entries.{named};

    ghost Value = { List (Symbol × T) };

    ghost view = { λ n. map named n.entries.entries };
}

impl<T: Drop> Named<T> {
    /// No names. It takes no memory.
    pub fn new(alloc: Global) -> Named<T>
        ensures { result ≡ [] }
    {
        Named {
            entries: IndexMap::new(alloc),
        }
    }

    /// How many names there are.
    pub fn len(&self) -> usize
        ensures { result ≡ length self.now }
    {
        self.entries.len()
    }

    /// Whether there are none.
    pub fn is_empty(&self) -> bool
        ensures { IsTrue result ↔ (self.now ≡ []) }
    {
        self.entries.is_empty()
    }

    /// No name stands twice.
    #[tactic(auto, using(crate::proofs::ordered_map::Replacing::all_apart))]
    pub fn law_apart(&self)
        ensures { AreApart self.now }
    {
        // What is called says that no two keys are the same.
        let _count = self.entries.len();
    }

    /// What stands under a name.
    #[tactic(auto, using(crate::proofs::ordered_map::Lookups::found_is))]
    pub fn get(&self, name: Symbol) -> Option<&T>
        ensures { option_copied result ≡ found self.now name }
    {
        self.entries.get(&name.0)
    }

    /// Whether something stands under a name.
    #[tactic(auto, using(crate::proofs::ordered_map::Lookups::found_is))]
    pub fn has(&self, name: Symbol) -> bool
        ensures { result ≡ is_some (found self.now name) }
    {
        self.entries.contains_key(&name.0)
    }

    /// The name at a place, counted from 0, and what stands under it.
    #[tactic(auto, using(crate::proofs::ordered_map::Lookups::none_earlier))]
    pub fn entry(&self, place: usize) -> Option<(Symbol, &T)>
        ensures entry { IfSome result (λ e. slice_get self.now place ≡ Some (e.0, e.1.now)) }
        ensures within { IsSome result ↔ (place < length self.now) }
        ensures earlier { IfSome result (λ e. found (take place self.now) e.0 ≡ None) }
    {
        // What is called says that no two keys are the same.
        let _count = self.entries.len();
        let (name, value) = self.entries.get_index(place)?;
        Some((Symbol(*name), value))
    }

    /// Puts a value under a name that is new, at the end. For want of memory all stays as it was.
    #[tactic(auto, using(crate::proofs::ordered_map::Lookups::found_is, crate::proofs::ordered_map::Lookups::put_last))]
    pub fn insert(&mut self, name: Symbol, value: T) -> Result<(), AllocError>
        requires new { found self.old name ≡ None }
        ensures ok { OnOk result (self.new ≡ self.old ++ (name, value) ∷ []) }
        ensures err { OnErr result (self.new ≡ self.old) }
    {
        self.entries.insert(name.0, value)?;
        Ok(())
    }

    /// Takes the last name away, with what stands under it.
    #[tactic(auto, using(crate::proofs::ordered_map::Lookups::last_taken, crate::proofs::ordered_map::Lookups::none_left))]
    pub fn pop(&mut self) -> Option<(Symbol, T)>
        ensures taken { IfSome result (λ e. self.old ≡ self.new ++ e ∷ []) }
        ensures empty { IfNone result (self.old ≡ []) }
    {
        let Some((name, value)) = self.entries.pop() else {
            return None;
        };
        Some((Symbol(name), value))
    }
}
