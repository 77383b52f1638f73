//! Lists of ids, shapes and declarations, which contracts see as lists.
ghost use Rattle.std.specs.Prelude.{◌≡◌, ◌<◌, ◌++◌, [], ◌∷◌, length, IsTrue, IfOk, OnOk, OnErr, slice_get, Some};
ghost use Rattle.spv_logic.specs.Shapes.{shapes_ok};

use smallvec::SmallVec;
use spv_logic::{Decl, Shape, TermId, TypeId};
use std::alloc::{AllocError, Global};
use std::cmp::Ordering;
use std::marker::Model;

/// The arguments of a node, in order: up to three of them stand in the node itself.
#[derive(Debug, Drop)]
pub struct Arguments {
    list: SmallVec<TermId, 3>,
}

impl Model for Arguments {
    ghost use Rattle.std.specs.Prelude.{List};
    ghost use Rattle.spv_logic.specs.declared.conditions.TermId.{TermId};

    ghost Value = { List TermId };

    ghost view = { λ a. a.list.items };
}

impl Arguments {
    /// A copy of these arguments.
    pub fn from_slice(alloc: Global, args: &[TermId]) -> Result<Arguments, AllocError>
        ensures { IfOk result (λ a. a ≡ args.now) }
    {
        let list = SmallVec::from_slice(alloc, args)?;
        Ok(Arguments { list })
    }

    /// The arguments as a slice.
    pub fn as_slice(&self) -> &[TermId]
        ensures { result.now ≡ self.now }
    {
        self.list.as_slice()
    }

    /// How many arguments there are.
    pub fn len(&self) -> usize
        ensures { result ≡ length self.now }
    {
        self.list.len()
    }

    /// The argument at a place, from 0.
    pub fn get(&self, place: usize) -> TermId
        requires { place < length self.now }
        ensures { slice_get self.now place ≡ Some result }
    {
        self.list.as_slice()[place]
    }
}

impl PartialEq for Arguments {
    ghost use Rattle.std.proofs.Common.{rules};
    ghost use Rattle.std.specs.Bool.{◌==◌};
    ghost use Rattle.std.specs.Ordering.{on};
    ghost use Rattle.std.specs.Cmp.Rules.{comparing};
    ghost use Rattle.std.specs.Cmp.Lexicographic.{pointwise};

    ghost eq = { pointwise (on (λ t. t.0) ◌==◌) };

    ghost laws = { Prim.search (comparing, rules) };

    fn eq(&self, other: &Arguments) -> bool {
        self.list.as_slice() == other.list.as_slice()
    }
}

impl Eq for Arguments {
    ghost use Rattle.std.proofs.Common.{rules};
    ghost use Rattle.std.specs.Cmp.Rules.{comparing};

    ghost laws = { Prim.search (comparing, rules) };
}

impl PartialOrd for Arguments {
    ghost use Rattle.std.proofs.Common.{rules};
    ghost use Rattle.std.specs.Cmp.{partial_order_from_own_ties, unsigned_ties};
    ghost use Rattle.std.specs.Cmp.Rules.{comparing};
    ghost use Rattle.std.specs.Cmp.Lexicographic.{slice_cmp, lists_ties};
    ghost use Rattle.spv_logic.specs.declared.conditions.TermId.{TermId};
    ghost use Rattle.std.specs.Ordering.{on, nat_cmp, as_partial_cmp};

    ghost partial_cmp = { as_partial_cmp (slice_cmp (on (λ t. t.0) nat_cmp)) };

    ghost laws = { partial_order_from_own_ties (Prim.search (comparing, rules))
        (lists_ties (on (λ (t : TermId). t.0) nat_cmp) (λ t u. unsigned_ties t.0 u.0)) };

    fn partial_cmp(&self, other: &Arguments) -> Option<Ordering> {
        Some(self.cmp(other))
    }
}

impl Ord for Arguments {
    ghost use Rattle.std.proofs.Common.{rules};
    ghost use Rattle.std.specs.Cmp.{unsigned_ties};
    ghost use Rattle.std.specs.Cmp.Rules.{comparing};
    ghost use Rattle.std.specs.Cmp.Lexicographic.{slice_cmp, lists_ties};
    ghost use Rattle.std.specs.Ordering.{on, nat_cmp};
    ghost use Rattle.spv_logic.specs.declared.conditions.TermId.{TermId};

    ghost cmp = { slice_cmp (on (λ t. t.0) nat_cmp) };

    ghost total = { Prim.search (comparing, rules) };

    ghost matches_partial_cmp = { Prim.search (comparing, rules) };

    ghost matches_eq = { lists_ties (on (λ (t : TermId). t.0) nat_cmp) (λ t u. unsigned_ties t.0 u.0) };

    fn cmp(&self, other: &Arguments) -> Ordering {
        self.list.as_slice().cmp(&other.list.as_slice())
    }
}

/// The shapes of a program's types, by their places. Each type that a shape names is there, the
/// parts of arrays and records have sorts that parts may have, the names of a record's fields
/// differ, and no type contains itself.
#[derive(Debug, Drop)]
pub struct Shapes {
    list: Vec<Shape>,
}

impl Model for Shapes {
    ghost use Rattle.std.specs.Prelude.{List, IsTrue};
    ghost use Rattle.spv_logic.specs.declared.types.Shape.{Shape};
    ghost use Rattle.spv_logic.specs.Shapes.{shapes_ok};

    ghost Value = { List Shape };

    ghost view = { λ a. a.list.items };

    ghost invariant = { λ a. IsTrue (shapes_ok a.list.items) };
}

impl Shapes {
    /// No types.
    pub fn new(alloc: Global) -> Shapes
        ensures { result ≡ [] }
    {
        Shapes {
            list: Vec::new(alloc),
        }
    }

    /// The shapes of a vector, in its order.
    pub fn from_vec(list: Vec<Shape>) -> Shapes
        requires { IsTrue (shapes_ok list.items) }
        ensures { result ≡ list.items }
    {
        Shapes { list }
    }

    /// The shapes as a slice.
    pub fn as_slice(&self) -> &[Shape]
        ensures { result.now ≡ self.now }
    {
        self.list.as_slice()
    }

    /// How many types there are.
    pub fn len(&self) -> usize
        ensures { result ≡ length self.now }
    {
        self.list.len()
    }

    /// The shape of a type.
    pub fn get(&self, t: TypeId) -> &Shape
        requires { t.0 < length self.now }
        ensures { slice_get self.now t.0 ≡ Some result.now }
    {
        &self.list[t.0 as usize]
    }

    /// The shapes are types of a program.
    pub fn law_shapes(&self)
        ensures { IsTrue (shapes_ok self.now) }
    {
        let _list = &self.list;
    }
}
