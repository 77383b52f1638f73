//! The arena.
ghost use Rattle.std.specs.Prelude.{◌≡◌, ◌<◌, ◌≤◌, [], ◌∷◌, ◌++◌, length, Some, IsSome, IfSome, is_some, IsTrue, nat_eq, if◌then◌else◌, IsErr, IfOk, IfErr, OnOk, OnErr, slice_get};
ghost use Rattle.spv_logic.specs.Terms.{term};
ghost use Rattle.spv_logic.specs.Sorts as spec;
ghost use Rattle.spv_term.specs.declared.nodes.Node.{Node};
ghost use Rattle.spv_term.specs.declared.nodes.TermFault.TheVariants.{Size, Memory};
ghost use Rattle.spv_term.specs.Arena.{node, node_eq, number_of, has_node, with_node, place_of, lacks_room, AllBelow, tree, trees, sort_at, sorts_at, symbols_differ, decls_in_range, MayFollow, IsArena, Extends};

use crate::lists::{Arguments, Shapes};
use crate::nodes::{Node, TermFault};
use crate::sorts::result_sort;
use spv_logic::list::List;
use spv_logic::{Decl, Head, Sort, TermId};
use std::alloc::{AllocError, Global};
use std::collections::BTreeMap;
use std::marker::Model;

/// Terms, each of which stands once: a term's id is the place of its node, and a node's arguments
/// have smaller ids. Nodes are added at the end and never change. A look-up goes by the order of nodes, so that no
/// choice of terms makes it long.
#[derive(Drop)]
pub struct Terms {
    nodes: Vec<Node>,
    sorts: Vec<Sort>,
    places: BTreeMap<Node, u32>,
    most: u32,
    shapes: Shapes,
    decls: List<Decl>,
}

impl Model for Terms {
    ghost use Rattle.std.specs.Prelude.{◌≡◌};
    ghost use Rattle.spv_term.specs.Arena.{Arena, IsArena, ArePlaces, sorts_of};

    ghost Value = { Arena };

    ghost view = { λ t. record { nodes = t.nodes.items; most = t.most; shapes = t.shapes; decls = t.decls } };

    ghost invariant = { λ t. record {
      arena : IsArena (record { nodes = t.nodes.items; most = t.most; shapes = t.shapes; decls = t.decls });
      sorts : t.sorts.items ≡ sorts_of t.shapes t.decls t.nodes.items;
      places : ArePlaces t.places t.nodes.items;
    } };
}

// Puts a number for a node into a map.
fn put_place(places: &mut BTreeMap<Node, u32>, node: Node, place: u32) -> Result<(), AllocError>
    ensures ok { OnOk result ((n : Node) → number_of places.new n
        ≡ (if node_eq node n then Some place else number_of places.old n)) }
    ensures err { OnErr result (places.new.entries ≡ places.old.entries) }
{
    let _none = places.insert(node, place)?;
    Ok(())
}

impl Terms {
    /// The arena without terms, for at most `most` of them, over these types and symbols. It takes
    /// no memory.
    pub fn new(alloc: Global, shapes: Shapes, decls: List<Decl>, most: u32) -> Terms
        requires names { IsTrue (symbols_differ decls) }
        requires types { IsTrue (decls_in_range shapes decls) }
        ensures nodes { result.nodes ≡ [] }
        ensures most { result.most ≡ most }
        ensures shapes { result.shapes ≡ shapes }
        ensures decls { result.decls ≡ decls }
    {
        shapes.law_shapes();
        Terms {
            nodes: Vec::new(alloc),
            sorts: Vec::new(alloc),
            places: BTreeMap::new(alloc),
            most,
            shapes,
            decls,
        }
    }

    /// The term of this head over these terms. A term that is there has the id that it has; a new one
    /// goes last. `Size` comes exactly where the term is new and there may be no more, unless there
    /// is no memory for the node, which is `Memory`. After an error the arena is as it was.
    pub fn make(&mut self, head: Head, args: &[TermId]) -> Result<TermId, TermFault>
        requires args { AllBelow (length self.old.nodes) args.now }
        requires sorts { IsSome
            (spec.result_sort self.old.shapes self.old.decls head (sorts_at self.old args.now)) }
        requires types { IsTrue (spec.head_in_range self.old.shapes head) }
        requires numeral { IsTrue (spec.numeral_fits head) }
        ensures id { IfOk result (λ t. t.0 ≡ place_of self.old.nodes (node head args.now)) }
        ensures arena { OnOk result
            (self.new ≡ record self.old { nodes = with_node self.old.nodes (node head args.now) }) }
        ensures node { IfOk result
            (λ t. slice_get self.new.nodes t.0 ≡ Some (node head args.now)) }
        ensures in_range { IfOk result (λ t. t.0 < length self.new.nodes) }
        ensures tree { IfOk result
            (λ t. tree self.new t ≡ term head (trees self.old args.now)) }
        ensures sort { IfOk result
            (λ t. spec.result_sort self.old.shapes self.old.decls head (sorts_at self.old args.now)
            ≡ Some (sort_at self.new t)) }
        ensures grows { Extends self.old self.new }
        ensures size { result ≡ Err Size → IsTrue (lacks_room self.old (node head args.now)) }
        ensures full { IsTrue (lacks_room self.old (node head args.now)) → IsErr result }
        ensures unchanged { OnErr result (self.new ≡ self.old) }
    {
        self.law_arena();
        let node = self.node_over(head, args)?;
        if let Some(t) = self.find(&node) {
            return Ok(t);
        }
        if self.is_full() {
            return Err(TermFault::Size);
        }
        let sort = self.sort_over(head, args);
        self.push(node, sort)
    }

    // The node of this head over these terms, apart from the arena.
    fn node_over(&self, head: Head, args: &[TermId]) -> Result<Node, TermFault>
        ensures node { IfOk result (λ n. n ≡ node head args.now) }
        ensures err { IfErr result (λ e. e ≡ Memory) }
    {
        match Arguments::from_slice(*self.nodes.allocator(), args) {
            Ok(args) => Ok(Node { head, args }),
            Err(_) => Err(TermFault::Memory),
        }
    }

    // The id of a node, if it is there.
    fn find(&self, node: &Node) -> Option<TermId>
        ensures there { IfSome result (λ t. t.0 ≡ place_of self.now.nodes node.now) }
        ensures found { is_some result ≡ has_node self.now.nodes node.now }
    {
        let place = self.places.get(node)?;
        Some(TermId(*place))
    }

    // Whether there may be no more terms.
    fn is_full(&self) -> bool
        ensures { result ≡ nat_eq (length self.now.nodes) self.now.most }
    {
        self.nodes.len() == self.most as usize
    }

    // Puts a new node at the end, with its sort.
    fn push(&mut self, node: Node, sort: Sort) -> Result<TermId, TermFault>
        requires new { MayFollow self.old.shapes self.old.decls self.old.nodes node }
        requires room { length self.old.nodes < self.old.most }
        requires sort { spec.result_sort self.old.shapes self.old.decls node.head (sorts_at self.old node.args)
            ≡ Some sort }
        ensures id { IfOk result (λ t. t.0 ≡ length self.old.nodes) }
        ensures ok { OnOk result (self.new ≡ record self.old { nodes = self.old.nodes ++ node ∷ [] }) }
        ensures err { IfErr result (λ e. e ≡ Memory) }
        ensures unchanged { OnErr result (self.new ≡ self.old) }
    {
        let place = self.nodes.len() as u32;
        let key = self.node_over(node.head, node.args.as_slice())?;
        self.nodes.reserve(1)?;
        self.sorts.reserve(1)?;
        put_place(&mut self.places, key, place)?;
        self.nodes.push(node).unwrap();
        self.sorts.push(sort).unwrap();
        Ok(TermId(place))
    }

    // The first one's sort; of no terms, that of a number.
    fn first_sort(&self, args: &[TermId]) -> Sort
        requires { AllBelow (length self.now.nodes) args.now }
        ensures { result ≡ spec.first_sort (sorts_at self.now args.now) }
    {
        match args {
            [] => Sort::Int,
            [first, ..] => self.sort(*first),
        }
    }

    // The sort of a head over these terms, whose sorts fit it.
    fn sort_over(&self, head: Head, args: &[TermId]) -> Sort
        requires args { AllBelow (length self.now.nodes) args.now }
        requires sorts { IsSome
            (spec.result_sort self.now.shapes self.now.decls head (sorts_at self.now args.now)) }
        ensures { spec.result_sort self.now.shapes self.now.decls head (sorts_at self.now args.now)
            ≡ Some result }
    {
        let first = self.first_sort(args);
        result_sort(self.shapes.as_slice(), self.decls.as_slice(), head, first)
    }

    /// The node of a term.
    pub fn node(&self, t: TermId) -> &Node
        requires { t.0 < length self.now.nodes }
        ensures { slice_get self.now.nodes t.0 ≡ Some result.now }
    {
        &self.nodes[t.0 as usize]
    }

    /// The sort of a term.
    pub fn sort(&self, t: TermId) -> Sort
        requires { t.0 < length self.now.nodes }
        ensures { result ≡ sort_at self.now t }
    {
        self.sorts[t.0 as usize]
    }

    /// How many terms there are: their ids are the numbers below it.
    pub fn len(&self) -> u32
        ensures len { result ≡ length self.now.nodes }
        ensures room { result ≤ self.now.most }
    {
        self.nodes.len() as u32
    }

    /// How many terms there may be.
    pub fn most(&self) -> u32
        ensures { result ≡ self.now.most }
    {
        self.most
    }

    /// The shapes of the program's types, as `new` was given them.
    pub fn shapes(&self) -> &Shapes
        ensures { result.now ≡ self.now.shapes }
    {
        &self.shapes
    }

    /// The declared symbols, as `new` was given them.
    pub fn decls(&self) -> &[Decl]
        ensures { result.now ≡ self.now.decls }
    {
        self.decls.as_slice()
    }

    /// What is true of every arena.
    pub fn law_arena(&self)
        ensures { IsArena self.now }
    {
        let _nodes = &self.nodes;
    }
}
