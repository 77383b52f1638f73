// Adding a term whose arguments were added.

ghost use Rattle.std.specs.Prelude.{◌≡◌, ◌<◌, ◌≤◌, ◌+◌, ◌^◌, ◌++◌, [], ◌∷◌, ℕ, suc, List, map, length, slice_get, Some, IfOk, OnOk, OnErr};
ghost use Rattle.spv_logic.specs.declared.conditions.TermId.{TermId};
ghost use Rattle.spv_term.specs.declared.nodes.Node.{Node};
ghost use Rattle.spv_term.specs.Arena.{AllBelow, node};
ghost use Rattle.spv_union_find.specs.signatures.Signatures.{cells_of};
ghost use Rattle.spv_congruence.specs.Graph.{HasNode, IsGraph, Waits};
ghost use Rattle.spv_congruence.specs.Keep.{graph, Adds, AreNodes, Fits, HasPut, IsMissing, IsPrepared, KeepsUses, MakesRoom, Puts, uses_at};

use crate::kept::Kept;
use spv_term::{Arguments, Head, Node, TermId};
use spv_union_find::classes::Classes;
use std::alloc::{AllocError, Global};

// Puts a node at a place, with none at the places in between.
fn put_node(nodes: &mut Vec<Option<Node>>, place: usize, node: Node) -> Result<(), AllocError>
    requires { place < 2 ^ 32 }
    ensures ok { OnOk result (HasPut nodes.old.items place node nodes.new.items) }
    ensures err { OnErr result (nodes.new.items ≡ nodes.old.items) }
{
    let count = nodes.as_slice().len();
    if place < count {
        nodes[place] = Some(node);
        return Ok(());
    }
    nodes.reserve(place - count + 1)?;
    for _ in count..place {
        nodes.push(None).unwrap();
    }
    nodes.push(Some(node)).unwrap();
    Ok(())
}

// Makes classes up to a place.
fn grow_classes(classes: &mut Classes, place: usize) -> Result<(), AllocError>
    ensures is { classes.new ≡ record classes.old { count = classes.new.count } }
    ensures more { classes.old.count ≤ classes.new.count }
    ensures ok { OnOk result (place < classes.new.count) }
{
    while classes.count() <= place {
        classes.grow()?;
    }
    Ok(())
}

// Makes lists of uses up to a place.
fn grow_uses(alloc: Global, uses: &mut Vec<Vec<TermId>>, place: usize) -> Result<(), AllocError>
    ensures same { (x : ℕ) → uses_at (map (λ v. v.items) uses.new.items) x ≡ uses_at (map (λ v. v.items) uses.old.items) x }
    ensures ok { OnOk result (place < length uses.new.items) }
{
    while uses.as_slice().len() <= place {
        uses.push(Vec::new(alloc))?;
    }
    Ok(())
}

// Adds a term to those that use another one.
fn add_use(uses: &mut [Vec<TermId>], x: usize, t: TermId) -> Result<(), AllocError>
    requires { x < length uses.old }
    ensures keeps { KeepsUses (map (λ v. v.items) uses.old) (map (λ v. v.items) uses.new) }
    ensures many { length uses.new ≡ length uses.old }
    ensures ok { OnOk result (Waits (uses_at (map (λ v. v.items) uses.new) x) t) }
{
    uses[x].push(t)?;
    Ok(())
}

impl Kept {
    // Makes classes up to a term.
    fn grow_classes(&mut self, t: TermId) -> Result<(), AllocError>
        ensures room { MakesRoom self.old self.new }
        ensures ok { OnOk result (t.0 < self.new.classes.count) }
    {
        grow_classes(&mut self.classes, t.0 as usize)
    }

    // Makes room for the uses of a term, for the labels of so many arguments, and for its signature.
    fn grow_lists(&mut self, t: TermId, args: usize) -> Result<(), AllocError>
        ensures room { MakesRoom self.old self.new }
        ensures uses { OnOk result (t.0 < length self.new.uses) }
        ensures labels { OnOk result (args ≤ self.new.room) }
        ensures cells { OnOk result (cells_of self.new.table.rows + suc args ≤ self.new.table.room) }
        ensures classes { self.new.classes ≡ self.old.classes }
    {
        grow_uses(*self.added.allocator(), &mut self.uses, t.0 as usize)?;
        self.labels.reserve(args)?;
        self.table.make_room(args)
    }

    // Notes that a term uses its arguments.
    fn use_args(&mut self, t: TermId, args: &[TermId]) -> Result<(), AllocError>
        requires { AllBelow (length self.old.uses) args.now }
        ensures room { MakesRoom self.old self.new }
        ensures is { self.new ≡ record self.old { uses = self.new.uses } }
        ensures ok { OnOk result ((i : ℕ) (u : TermId) → slice_get args.now i ≡ Some u → Waits (uses_at self.new.uses u.0) t) }
    {
        for u in args {
            self.use_arg(t, *u)?;
        }
        Ok(())
    }

    // Notes that a term uses another one.
    fn use_arg(&mut self, t: TermId, u: TermId) -> Result<(), AllocError>
        requires { u.0 < length self.old.uses }
        ensures is { self.new ≡ record self.old { uses = self.new.uses } }
        ensures keeps { KeepsUses self.old.uses self.new.uses }
        ensures many { length self.new.uses ≡ length self.old.uses }
        ensures ok { OnOk result (Waits (uses_at self.new.uses u.0) t) }
    {
        add_use(self.uses.as_mut_slice(), u.0 as usize, t)
    }

    // Makes all room for a term over arguments.
    fn prepare(&mut self, t: TermId, args: &[TermId]) -> Result<(), AllocError>
        requires { AllBelow t.0 args.now }
        ensures room { MakesRoom self.old self.new }
        ensures ok { OnOk result (IsPrepared self.new t args.now) }
    {
        self.grow_classes(t)?;
        self.grow_lists(t, args.len())?;
        self.use_args(t, args)
    }

    // Puts a term and its node behind the others.
    fn put(&mut self, t: TermId, node: Node) -> Result<(), AllocError>
        ensures ok { OnOk result (Puts self.old t node self.new) }
        ensures err { OnErr result (self.new ≡ self.old) }
    {
        self.added.reserve(1)?;
        put_node(&mut self.nodes, t.0 as usize, node)?;
        self.added.push(t).unwrap();
        Ok(())
    }

    // Adds a term whose arguments were added. For want of memory the graph stays as it was.
    pub(crate) fn add_one(
        &mut self,
        t: TermId,
        head: Head,
        args: &[TermId],
    ) -> Result<(), AllocError>
        requires fits { Fits self.old }
        requires graph { IsGraph (graph self.old) }
        requires missing { IsMissing self.old.nodes t }
        requires below { AllBelow t.0 args.now }
        requires args { AreNodes self.old.nodes args.now }
        ensures ok { OnOk result (Adds (graph self.old) (graph self.new) t (node head args.now)) }
        ensures err { OnErr result (graph self.new ≡ graph self.old) }
        ensures fits { Fits self.new }
        ensures graph { IsGraph (graph self.new) }
    {
        let copy = copied(*self.added.allocator(), head, args)?;
        self.prepare(t, args)?;
        let place = self.terms();
        self.put(t, copy)?;
        self.enter_next(place);
        Ok(())
    }
}

// The node of a head over these terms.
fn copied(alloc: Global, head: Head, args: &[TermId]) -> Result<Node, AllocError>
    ensures { IfOk result (λ n. n ≡ node head args.now) }
{
    match Arguments::from_slice(alloc, args) {
        Ok(args) => Ok(Node { head, args }),
        Err(_) => Err(AllocError),
    }
}
