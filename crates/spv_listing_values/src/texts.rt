//! The written terms of one condition.

ghost use Rattle.std.specs.Prelude.{◌≡◌, ◌<◌, ◌↔◌, [], IsTrue, length, map};

use spv_logic::names::{Names, Symbol};
use std::alloc::Global;
use std::marker::Model;

/// A written term: its place among the terms of its condition.
#[derive(Clone, Copy, PartialEq, Eq, Debug)]
pub struct Text(pub u32);

/// The head of a written term.
#[derive(Clone, Copy, Debug)]
pub enum HeadText<'a> {
    /// A word that stands alone.
    Alone(&'a [u8]),
    /// A word that is applied, with the name that belongs to it where it has one.
    Applied(&'a [u8], Option<&'a [u8]>),
}

// A head whose words are in a table of names.
#[derive(Clone, Copy, Debug)]
pub(crate) enum TextHead {
    Alone(Symbol),
    Applied(Symbol, Option<Symbol>),
}

// A head, and where its arguments stand in the list of all arguments.
#[derive(Clone, Copy, Debug)]
pub(crate) struct Node {
    pub(crate) head: TextHead,
    pub(crate) first: u32,
    pub(crate) end: u32,
}

/// The terms of a condition, each behind its arguments.
#[derive(Drop)]
pub struct Texts {
    names: Names,
    args: Vec<Text>,
    nodes: Vec<Node>,
}

impl Model for Texts {
    ghost use Rattle.std.specs.Prelude.{List, map};
    ghost use Rattle.spv_listing_values.specs.Places.{Flat, flat_at, AreTexts};

    ghost Value = { List Flat };

    ghost view = { λ t. map (flat_at t.names t.args.items) t.nodes.items };

    ghost invariant = { λ t. AreTexts t.names t.args.items t.nodes.items };
}

impl Texts {
    ghost use Rattle.spv_listing_values.specs.Places.{IsTable, AreTexts, flat_at, flat_in, head_seen};

    /// No term. It takes no memory.
    pub fn new(alloc: Global) -> Texts
        ensures { result ≡ [] }
    {
        Texts {
            names: Names::new(alloc),
            args: Vec::new(alloc),
            nodes: Vec::new(alloc),
        }
    }

    // The terms of nodes whose words and arguments stand in these tables.
    pub(crate) fn of_nodes(names: Names, args: Vec<Text>, nodes: Vec<Node>) -> Texts
        requires { AreTexts names args.items nodes.items }
        ensures { result ≡ map (flat_at names args.items) nodes.items }
    {
        Texts { names, args, nodes }
    }

    /// How many there are.
    pub fn len(&self) -> usize
        ensures { result ≡ length self.now }
    {
        self.nodes.len()
    }

    /// Whether there are none.
    pub fn is_empty(&self) -> bool
        ensures { IsTrue result ↔ (self.now ≡ []) }
    {
        self.nodes.is_empty()
    }

    /// The head of a term.
    pub fn head(&self, t: Text) -> HeadText<'_>
        requires { t.0 < length self.now }
        ensures { head_seen result ≡ (flat_in self.now t).head }
    {
        match self.nodes[t.0 as usize].head {
            TextHead::Alone(word) => HeadText::Alone(self.names.text(word)),
            TextHead::Applied(word, None) => HeadText::Applied(self.names.text(word), None),
            TextHead::Applied(word, Some(name)) => {
                HeadText::Applied(self.names.text(word), Some(self.names.text(name)))
            }
        }
    }

    /// The arguments of a term.
    pub fn args(&self, t: Text) -> &[Text]
        requires { t.0 < length self.now }
        ensures { result.now ≡ (flat_in self.now t).args }
    {
        let node = self.nodes[t.0 as usize];
        &self.args.as_slice()[node.first as usize..node.end as usize]
    }

    /// Arguments stand before their term.
    pub fn law_texts(&self)
        ensures { IsTable self.now }
    {
        let _ = &self.nodes;
    }
}
