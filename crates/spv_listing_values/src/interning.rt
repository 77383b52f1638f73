// Terms that are entered one by one, each found where it is known.

ghost use Rattle.std.specs.Prelude.{◌≡◌, ◌<◌, ◌≤◌, ◌++◌, ◌∷◌, [], ℕ, List, Some, None, IsFalse, IfOk, OnOk, if◌then◌else◌, length, drop, map};
ghost use Rattle.std.specs.List.{list_any};
ghost use Rattle.std.specs.Str.{bytes_eq};
ghost use Rattle.spv_logic.specs.names.Names.{IsFolded};
ghost use Rattle.spv_listing_values.specs.Places as spec;
ghost use Rattle.spv_listing_values.specs.Places.{entered, name_at, head_at, HeadIn, place_of, with_flat, tree};
ghost use Rattle.spv_listing_values.specs.Parts.{HasSpans, AreParts, IsItem, head_in, piece_at, item_at};
ghost use Rattle.spv_listing_values.specs.Interned as interned;
ghost use Rattle.spv_listing_values.specs.Interned.{code_at, found_by, piece_entered, flats_at, entered_at, IsSound, GoesOn};

use crate::scanning::{Item, Line, Part, PartHead, short};
use crate::texts::{Node, Text, TextHead, Texts};
use spv_logic::names::{Names, Symbol};
use std::alloc::{AllocError, Global};
use std::collections::BTreeMap;
use std::mem;

// The most names that a table of names has.
const MOST_NAMES: usize = 2147483648;

// The places of terms, each found by the numbers of its head and of its arguments. A look-up goes by the order of such lists, so that no choice of
// terms makes it long.
type Places = BTreeMap<Vec<u32>, u32>;

// Terms, each once and behind its arguments, and those that wait to be arguments of the next ones.
#[derive(Drop)]
pub(crate) struct Table {
    names: Names,
    args: Vec<Text>,
    nodes: Vec<Node>,
    places: Places,
    waiting: Vec<Text>,
    key: Vec<u32>,
    alloc: Global,
}

// The number of a word, which is entered where the table lacks it.
fn enter_word(names: &mut Names, word: &[u8]) -> Result<Symbol, AllocError>
    requires { IsFolded word.now }
    ensures known { IfOk result (λ x. (x.0 < length names.new) × (name_at names.new x ≡ word.now)) }
    ensures grows { OnOk result (GoesOn names.old names.new) }
{
    if names.len() >= MOST_NAMES {
        return Err(AllocError);
    }
    names.enter(word)
}

// The numbers of a head's words.
fn enter_head(names: &mut Names, bytes: &[u8], head: PartHead) -> Result<TextHead, AllocError>
    requires folded { IsFolded bytes.now }
    requires spans { HasSpans bytes.now head }
    ensures known { IfOk result (λ h. HeadIn names.new h × (head_at names.new h ≡ head_in bytes.now head)) }
    ensures grows { OnOk result (GoesOn names.old names.new) }
{
    match head {
        PartHead::Alone(word) => Ok(TextHead::Alone(enter_word(names, word.of(bytes))?)),
        PartHead::Applied(word, None) => {
            Ok(TextHead::Applied(enter_word(names, word.of(bytes))?, None))
        }
        PartHead::Applied(word, Some(name)) => {
            let word = enter_word(names, word.of(bytes))?;
            let name = enter_word(names, name.of(bytes))?;
            Ok(TextHead::Applied(word, Some(name)))
        }
    }
}

// The numbers of a head behind those of its kind.
fn push_head(key: &mut Vec<u32>, head: TextHead) -> Result<(), AllocError>
    ensures { OnOk result (key.new.items ≡ key.old.items ++ interned.code head []) }
{
    match head {
        TextHead::Alone(word) => {
            key.push(0)?;
            key.push(word.0)?;
        }
        TextHead::Applied(word, None) => {
            key.push(1)?;
            key.push(word.0)?;
        }
        TextHead::Applied(word, Some(name)) => {
            key.push(2)?;
            key.push(word.0)?;
            key.push(name.0)?;
        }
    }
    Ok(())
}

// A head and arguments as numbers.
#[tactic(auto, using(crate::proofs::Tables::code_is))]
fn write_code(key: &mut Vec<u32>, head: TextHead, args: &[Text]) -> Result<(), AllocError>
    ensures { OnOk result (key.new.items ≡ interned.code head args.now) }
{
    key.clear();
    push_head(key, head)?;
    for arg in args {
        key.push(arg.0)?;
    }
    Ok(())
}

// What the map has for these numbers.
fn find(places: &Places, key: &[u32]) -> Option<u32>
    ensures { result ≡ found_by (λ k. k.items) places.now key.now }
{
    places.get(key).copied()
}

// Gives these numbers a place.
fn put(alloc: Global, places: &mut Places, key: &[u32], place: u32) -> Result<(), AllocError>
    ensures { OnOk result ((other : List ℕ) → found_by (λ k. k.items) places.new other
        ≡ (if bytes_eq key.now other then Some place else found_by (λ k. k.items) places.old other)) }
{
    let owned = Vec::from_slice(alloc, key)?;
    let _none = places.insert(owned, place)?;
    Ok(())
}

impl Table {
    // No term.
    pub(crate) fn new(alloc: Global) -> Table
        ensures sound { IsSound result }
        ensures empty { entered_at result ≡ record { flats = []; places = [] } }
    {
        Table {
            names: Names::new(alloc),
            args: Vec::new(alloc),
            nodes: Vec::new(alloc),
            places: BTreeMap::new(alloc),
            waiting: Vec::new(alloc),
            key: Vec::new(alloc),
            alloc,
        }
    }

    // The terms so far, after which there is none.
    pub(crate) fn take(&mut self) -> Texts
        requires { IsSound self.old }
        ensures texts { result ≡ flats_at self.old }
        ensures sound { IsSound self.new }
        ensures empty { entered_at self.new ≡ record { flats = []; places = [] } }
    {
        let fresh = Table::new(self.alloc);
        let Table {
            names,
            args,
            nodes,
            places: _,
            waiting: _,
            key: _,
            alloc: _,
        } = mem::replace(self, fresh);
        Texts::of_nodes(names, args, nodes)
    }

    // Puts the term of a head over the terms that wait from a place on.
    fn push(&mut self, head: TextHead, from: usize) -> Result<Text, AllocError>
        requires sound { IsSound self.old }
        requires head { HeadIn self.old.names head }
        requires from { from ≤ length self.old.waiting.items }
        requires key { self.old.key.items ≡ interned.code head (drop from self.old.waiting.items) }
        requires new { IsFalse (list_any (bytes_eq self.old.key.items) (map (code_at self.old.args.items) self.old.nodes.items)) }
        ensures sound { OnOk result (IsSound self.new) }
        ensures flats { OnOk result (flats_at self.new
            ≡ flats_at self.old ++ record { head = head_at self.old.names head; args = drop from self.old.waiting.items } ∷ []) }
        ensures place { IfOk result (λ t. t.0 ≡ length self.old.nodes.items) }
        ensures waiting { OnOk result (self.new.waiting.items ≡ self.old.waiting.items) }
    {
        let place = short(self.nodes.len())?;
        let first = short(self.args.len())?;
        self.args
            .extend_from_slice(&self.waiting.as_slice()[from..])?;
        let end = short(self.args.len())?;
        put(self.alloc, &mut self.places, self.key.as_slice(), place)?;
        self.nodes.push(Node { head, first, end })?;
        Ok(Text(place))
    }

    // The term of a head over the terms that wait from a place on.
    fn place(&mut self, head: TextHead, from: usize) -> Result<Text, AllocError>
        requires sound { IsSound self.old }
        requires head { HeadIn self.old.names head }
        requires from { from ≤ length self.old.waiting.items }
        ensures sound { OnOk result (IsSound self.new) }
        ensures flats { OnOk result (flats_at self.new
            ≡ with_flat (flats_at self.old) (record { head = head_at self.old.names head; args = drop from self.old.waiting.items })) }
        ensures place { IfOk result (λ t. t
            ≡ place_of (flats_at self.old) (record { head = head_at self.old.names head; args = drop from self.old.waiting.items })) }
        ensures waiting { OnOk result (self.new.waiting.items ≡ self.old.waiting.items) }
    {
        self.names.law_different();
        write_code(&mut self.key, head, &self.waiting.as_slice()[from..])?;
        match find(&self.places, self.key.as_slice()) {
            Some(place) => Ok(Text(place)),
            None => self.push(head, from),
        }
    }

    // A part of a line, over the terms that wait.
    fn enter_part(&mut self, bytes: &[u8], part: Part) -> Result<(), AllocError>
        requires sound { IsSound self.old }
        requires folded { IsFolded bytes.now }
        requires spans { HasSpans bytes.now part.head }
        requires args { part.args ≤ length self.old.waiting.items }
        ensures sound { OnOk result (IsSound self.new) }
        ensures entered { OnOk result (entered_at self.new ≡ piece_entered (piece_at bytes.now part) (entered_at self.old)) }
    {
        let head = enter_head(&mut self.names, bytes, part.head)?;
        let from = self.waiting.len() - part.args as usize;
        let text = self.place(head, from)?;
        self.waiting.truncate(from);
        self.waiting.push(text)?;
        Ok(())
    }

    // The term of an item.
    pub(crate) fn enter(
        &mut self,
        bytes: &[u8],
        line: &Line,
        item: Item,
    ) -> Result<Text, AllocError>
        requires sound { IsSound self.old }
        requires idle { self.old.waiting.items ≡ [] }
        requires folded { IsFolded bytes.now }
        requires parts { AreParts bytes.now line.now.parts.items }
        requires item { IsItem bytes.now line.now.parts.items item }
        ensures sound { OnOk result (IsSound self.new) }
        ensures idle { OnOk result (self.new.waiting.items ≡ []) }
        ensures entered { IfOk result (λ t. record { flats = flats_at self.new; places = t ∷ [] }
            ≡ entered (record { flats = flats_at self.old; places = [] }) (item_at bytes.now line.now.parts.items item)) }
    {
        for k in item.first as usize..item.end as usize {
            self.enter_part(bytes, line.parts[k])?;
        }
        Ok(self.waiting.pop().unwrap())
    }
}
