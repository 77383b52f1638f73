// Variables, classes and start values that are found by their words.

ghost use Rattle.std.specs.Prelude.{◌≡◌, ◌++◌, [], ◌∷◌, ◌<◌, ℕ, List, Some, IfOk, OnOk, if◌then◌else◌, length, map, position, slice_get};
ghost use Rattle.std.specs.List.{filter};
ghost use Rattle.std.specs.Option.{option_and_then};
ghost use Rattle.std.specs.Str.{bytes_eq};
ghost use Rattle.spv_listing_values.specs.Interned.{found_by, ArePlaces};
ghost use Rattle.spv_rechecking.specs.written_terms.Printing as printing;
ghost use Rattle.spv_rechecking.specs.written_terms.Standing as spec;
ghost use Rattle.spv_rechecking.specs.written_terms.Leaves.{HaveLeaves, if_leaf};

use crate::written_terms::printing::leaf_text;
use spv_logic::names::{Names, Symbol};
use spv_term::{Head, TermId, Terms};
use std::alloc::{AllocError, Global};
use std::collections::BTreeMap;

// The places of leaves, each found by its word. A look-up goes by the order of words, so that no choice of words makes it long.
type Places = BTreeMap<Vec<u8>, u32>;

/// The variables, classes and start values that words may name: of those that are written alike, the first.
#[derive(Drop)]
pub struct Leaves {
    heads: Vec<Head>,
    places: Places,
}

// Whether a head is a variable, a class or a start value.
fn is_leaf(head: Head) -> bool
    ensures { result ≡ spec.is_leaf head }
{
    match head {
        Head::Var(..) | Head::ClassVar(..) | Head::Start(..) => true,
        _ => false,
    }
}

// What the map has for a word.
fn find(places: &Places, word: &[u8]) -> Option<u32>
    ensures { result ≡ found_by (λ k. k.items) places.now word.now }
{
    places.get(word).copied()
}

// Gives a word a place.
fn put(places: &mut Places, word: Vec<u8>, place: u32) -> Result<(), AllocError>
    ensures { OnOk result ((other : List ℕ) → found_by (λ k. k.items) places.new other
        ≡ (if bytes_eq word.items other then Some place else found_by (λ k. k.items) places.old other)) }
{
    let _none = places.insert(word, place)?;
    Ok(())
}

// Gives a word the next place, where it has none.
fn enter(places: &mut Places, word: Vec<u8>, place: u32) -> Result<(), AllocError>
    ensures { OnOk result ((words : List (List ℕ)) → length words ≡ place → ArePlaces (λ k. k.items) places.old words
        → ArePlaces (λ k. k.items) places.new (words ++ word.items ∷ [])) }
{
    match find(places, word.as_slice()) {
        Some(_) => Ok(()),
        None => put(places, word, place),
    }
}

impl Leaves {
    // None.
    fn new(alloc: Global) -> Leaves
        ensures heads { result.heads.items ≡ [] }
        ensures have { (names : List (List ℕ)) (titles : List _) → HaveLeaves names titles result }
    {
        Leaves {
            heads: Vec::new(alloc),
            places: BTreeMap::new(alloc),
        }
    }

    // Adds one whose word is this.
    fn add(
        &mut self,
        names: &Names,
        titles: &[Option<Symbol>],
        head: Head,
        word: Vec<u8>,
    ) -> Result<(), AllocError>
        requires have { HaveLeaves names.now titles.now self.old }
        requires word { word.items ≡ printing.leaf_text names.now titles.now head }
        ensures heads { OnOk result (self.new.heads.items ≡ self.old.heads.items ++ head ∷ []) }
        ensures have { OnOk result (HaveLeaves names.now titles.now self.new) }
    {
        let _ = names;
        let _ = titles;
        let place = self.heads.len();
        if place >= 4294967296 {
            return Err(AllocError);
        }
        enter(&mut self.places, word, place as u32)?;
        self.heads.push(head)?;
        Ok(())
    }

    // Adds a head, if it is a variable, a class or a start value.
    fn add_leaf(
        &mut self,
        alloc: Global,
        names: &Names,
        titles: &[Option<Symbol>],
        head: Head,
    ) -> Result<(), AllocError>
        requires have { HaveLeaves names.now titles.now self.old }
        ensures heads { OnOk result (self.new.heads.items ≡ self.old.heads.items ++ if_leaf head) }
        ensures have { OnOk result (HaveLeaves names.now titles.now self.new) }
    {
        if !is_leaf(head) {
            return Ok(());
        }
        let word = leaf_text(alloc, names, titles, head)?;
        self.add(names, titles, head, word)
    }

    // The first one with this word.
    pub(crate) fn find(&self, names: &Names, titles: &[Option<Symbol>], word: &[u8]) -> Option<Head>
        requires { HaveLeaves names.now titles.now self.now }
        ensures { result ≡ option_and_then (slice_get self.now.heads.items)
            (position (bytes_eq word.now) (map (printing.leaf_text names.now titles.now) self.now.heads.items)) }
    {
        let _ = names;
        let _ = titles;
        match find(&self.places, word) {
            Some(place) => self.heads.get(place as usize).copied(),
            None => None,
        }
    }
}

/// The variables, classes and start values of an arena, in order.
pub fn leaves_of(
    alloc: Global,
    names: &Names,
    titles: &[Option<Symbol>],
    terms: &Terms,
) -> Result<Leaves, AllocError>
    ensures heads { IfOk result (λ l. l.heads.items ≡ filter spec.is_leaf (map (λ n. n.head) terms.now.nodes)) }
    ensures have { IfOk result (λ l. HaveLeaves names.now titles.now l) }
{
    let mut leaves = Leaves::new(alloc);
    for place in 0..terms.len() {
        leaves.add_leaf(alloc, names, titles, terms.node(TermId(place)).head)?;
    }
    Ok(leaves)
}
