//! The table of names.
ghost use Rattle.std.specs.Prelude.{◌≡◌, ◌≢◌, ◌<◌, ◌≤◌, ◌↔◌, ℕ, [], ◌∷◌, ◌++◌, All, AllPairs, Contains, IsNone, IsTrue, IfSome, IfOk, OnOk, OnErr, Some, length, slice_get};
ghost use Rattle.spv_logic.specs.names.Names.{IsFolded, place_of, with_text};

use crate::names::maps::{LongPlaces, ShortPlaces, place_in, put_place};
use std::alloc::{AllocError, Global};
use std::collections::BTreeMap;
use std::marker::Model;

/// The number of a name: its place in the list of a `Names`, from 0 up.
#[derive(Clone, Copy, PartialEq, Eq, PartialOrd, Ord, Hash, Debug)]
pub struct Symbol(pub u32);

/// A list of different texts in upper case, in the order in which they were entered. A look-up goes by the order of the
/// texts, so that no choice of texts makes it long.
#[derive(Drop)]
pub struct Names {
    texts: Vec<Vec<u8>>,
    short: ShortPlaces,
    long: LongPlaces,
}

impl Model for Names {
    ghost use Rattle.std.specs.Prelude.{List, ℕ, map};
    ghost use Rattle.spv_logic.specs.names.Names.{IsNameTable, ArePlaces};

    ghost Value = { List (List ℕ) };

    ghost view = { λ n. map (λ t. t.items) n.texts.items };

    ghost invariant = { λ n. record {
      table : IsNameTable (map (λ t. t.items) n.texts.items);
      places : ArePlaces (λ t. t.items) n.short n.long (map (λ t. t.items) n.texts.items);
    } };
}

impl Names {
    /// The empty list. It takes no memory.
    pub fn new(alloc: Global) -> Names
        ensures { result ≡ [] }
    {
        Names {
            texts: Vec::new(alloc),
            short: BTreeMap::new(alloc),
            long: BTreeMap::new(alloc),
        }
    }

    /// How many names there are.
    pub fn len(&self) -> usize
        ensures len { result ≡ length self.now }
        ensures few { result ≤ 2147483648 }
    {
        self.texts.len()
    }

    /// Whether there are none.
    pub fn is_empty(&self) -> bool
        ensures { IsTrue result ↔ (self.now ≡ []) }
    {
        self.texts.is_empty()
    }

    /// The number of a text. If the table lacks it, it is put at the end.
    pub fn enter(&mut self, text: &[u8]) -> Result<Symbol, AllocError>
        requires room { length self.old < 2147483648 }
        requires folded { IsFolded text.now }
        ensures number { IfOk result (λ s. s.0 ≡ place_of self.old text.now) }
        ensures stands { IfOk result (λ s. slice_get self.new s.0 ≡ Some text.now) }
        ensures entered { OnOk result (self.new ≡ with_text self.old text.now) }
        ensures err { OnErr result (self.new ≡ self.old) }
    {
        if let Some(known) = self.find(text) {
            return Ok(known);
        }
        self.push(text)
    }

    // Puts a new text at the end.
    fn push(&mut self, text: &[u8]) -> Result<Symbol, AllocError>
        requires room { length self.old < 2147483648 }
        requires folded { IsFolded text.now }
        requires new { ¬ Contains self.old text.now }
        ensures number { IfOk result (λ s. s.0 ≡ length self.old) }
        ensures pushed { OnOk result (self.new ≡ self.old ++ text.now ∷ []) }
        ensures err { OnErr result (self.new ≡ self.old) }
    {
        let place = self.texts.len() as u32;
        let alloc = *self.texts.allocator();
        let owned = Vec::from_slice(alloc, text)?;
        self.texts.reserve(1)?;
        put_place(alloc, &mut self.short, &mut self.long, text, place)?;
        self.texts.push(owned).unwrap();
        Ok(Symbol(place))
    }

    /// The number of a text that was entered. It takes no memory.
    pub fn find(&self, text: &[u8]) -> Option<Symbol>
        requires folded { IsFolded text.now }
        ensures absent { IsNone result ↔ ¬ Contains self.now text.now }
        ensures number { IfSome result (λ s. s.0 ≡ place_of self.now text.now) }
        ensures stands { IfSome result (λ s. slice_get self.now s.0 ≡ Some text.now) }
    {
        let place = place_in(&self.short, &self.long, text)?;
        Some(Symbol(place))
    }

    /// The text of a name.
    pub fn text(&self, s: Symbol) -> &[u8]
        requires { s.0 < length self.now }
        ensures stands { slice_get self.now s.0 ≡ Some result.now }
        ensures folded { IsFolded result.now }
    {
        self.texts.as_slice()[s.0 as usize].as_slice()
    }

    /// No text stands twice, and each is in upper case.
    pub fn law_different(&self)
        ensures different { AllPairs (λ a b. a ≢ b) self.now }
        ensures folded { All IsFolded self.now }
    {
        let _ = &self.texts;
    }
}
