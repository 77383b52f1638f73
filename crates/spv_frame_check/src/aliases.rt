// Roots of VAR arguments, and where they meet.

ghost use Rattle.std.specs.Prelude.{◌≡◌, ◌++◌, ◌∷◌, [], IfOk, OnOk, Some, map, option_map, if◌then◌else◌};
ghost use Rattle.spv_program.specs.Frames.{place_roots, root_behind, root_of};
ghost use Rattle.spv_program.specs.Uses.{name_root};
ghost use Rattle.spv_program.specs.typed.ExpressionViews.{argument_before, arguments_of, selector_before, selectors_of};
ghost use Rattle.spv_effects.specs.frame_walk.FrameWalk.{alias, root_item, twice};
ghost use Rattle.spv_effects.specs.frame_events.Names.{named};
ghost use Rattle.spv_program.specs.Expressions.{no_arguments, no_selectors};
ghost use Rattle.spv_frame_check.specs.Sets.{no_items};
ghost use Rattle.spv_frame_check.specs.Allowed.{allows};
ghost use Rattle.spv_frame_check.specs.Tables.{has_root_in, listed_in, meeting_in};
ghost use Rattle.spv_frame_check.specs.Roots.{has_root, plain_root, plain_roots, with_root};

use crate::allowed::Allowed;
use crate::callees::in_list_of;
use crate::items::ItemSet;
use spv_effects::frame_events::NameSet;
use spv_effects::frame_walk::FrameFault;
use spv_logic::RoutineId;
use spv_logic::names::Symbol;
use spv_program::Item;
use spv_program::typed::{Argument, Call, Designator, Selector};
use std::alloc::{AllocError, Global};

/// What a VAR argument is a part of.
#[derive(Clone, Copy)]
pub(crate) enum Root {
    /// A routine's own name.
    Own(Symbol),
    /// Something that the program shares.
    Shared(Item),
}

fn name_root(own: &NameSet, x: Symbol) -> Root
    ensures { plain_root result ≡ name_root (named own.now) x }
{
    if own.has(x) {
        Root::Own(x)
    } else {
        Root::Shared(Item::Variable(x))
    }
}

// The root behind one selector.
fn root_after(root: Root, selector: &Selector) -> Root
    ensures { plain_root result ≡ root_behind (plain_root root) (selector_before selector.now no_selectors) }
{
    match selector {
        Selector::Index(_, _) => root,
        Selector::Field(_, _) => root,
        Selector::Cell(_, t) => Root::Shared(Item::Class(*t)),
    }
}

// The root behind selectors: that in front of them, or the class of their last `^`.
fn root_behind(root: Root, selectors: &[Selector]) -> Root
    ensures { plain_root result ≡ root_behind (plain_root root) (selectors_of selectors.now) }
{
    let mut last = root;
    for selector in selectors {
        last = root_after(last, selector);
    }
    last
}

fn root_of(own: &NameSet, place: &Designator) -> Root
    ensures { plain_root result ≡ root_of (named own.now) place.now }
{
    root_behind(name_root(own, place.name), place.selectors.as_slice())
}

fn push(roots: &mut Vec<Root>, root: Root) -> Result<(), AllocError>
    ensures { OnOk result (roots.new.items ≡ roots.old.items ++ root ∷ []) }
{
    roots.push(root)?;
    Ok(())
}

fn push_place(own: &NameSet, argument: &Argument, roots: &mut Vec<Root>) -> Result<(), AllocError>
    ensures { OnOk result (plain_roots roots.new.items ≡ plain_roots roots.old.items ++ place_roots (named own.now) (argument_before argument.now no_arguments)) }
{
    match argument {
        Argument::Value(_) => Ok(()),
        Argument::Place(place) => push(roots, root_of(own, place)),
    }
}

// The roots of the VAR arguments.
fn place_roots(
    own: &NameSet,
    alloc: Global,
    arguments: &[Argument],
) -> Result<Vec<Root>, AllocError>
    ensures { IfOk result (λ roots. plain_roots roots.items ≡ place_roots (named own.now) (arguments_of arguments.now)) }
{
    let mut roots = Vec::new(alloc);
    for argument in arguments {
        push_place(own, argument, &mut roots)?;
    }
    Ok(roots)
}

/// Roots, each once. A look-up goes by a hash.
#[derive(Drop)]
struct RootSet {
    own: NameSet,
    shared: ItemSet,
}

impl RootSet {
    fn new(alloc: Global) -> RootSet
        ensures { result ≡ record { own = []; shared = no_items } }
    {
        RootSet {
            own: NameSet::new(alloc),
            shared: ItemSet::new(alloc),
        }
    }

    fn has(&self, root: Root) -> bool
        ensures { result ≡ has_root self.now (plain_root root) }
    {
        match root {
            Root::Own(x) => self.own.has(x),
            Root::Shared(item) => self.shared.has(item),
        }
    }

    fn add(&mut self, root: Root) -> Result<(), AllocError>
        ensures { OnOk result (self.new ≡ with_root self.old (plain_root root)) }
    {
        match root {
            Root::Own(x) => self.own.add(x)?,
            Root::Shared(item) => self.shared.add(item)?,
        }
        Ok(())
    }
}

// A root that was seen, or else what was found.
fn seen_or(seen: &RootSet, root: Root, found: Option<Root>) -> Option<Root>
    ensures { option_map plain_root result ≡ (if has_root seen.now (plain_root root) then Some (plain_root root) else option_map plain_root found) }
{
    if seen.has(root) { Some(root) } else { found }
}

// The first root that a later one is: from the last one on, the last one that was seen.
fn twice(alloc: Global, given: Vec<Root>) -> Result<Option<Root>, AllocError>
    ensures { IfOk result (λ o. option_map plain_root o ≡ twice (plain_roots given.items)) }
{
    let mut roots = given;
    let mut seen = RootSet::new(alloc);
    let mut found = None;
    while let Some(root) = roots.pop() {
        found = seen_or(&seen, root, found);
        seen.add(root)?;
    }
    Ok(found)
}

fn is_listed(tables: &[Allowed], number: RoutineId, root: Root) -> bool
    ensures { result ≡ has_root_in (map allows tables.now) number (plain_root root) }
{
    match root {
        Root::Own(_) => false,
        Root::Shared(item) => in_list_of(tables, number, item),
    }
}

// The first root that is an item of the callee's list.
fn listed(tables: &[Allowed], number: RoutineId, roots: &[Root]) -> Option<Root>
    ensures { option_map plain_root result ≡ listed_in (map allows tables.now) number (plain_roots roots.now) }
{
    for root in roots {
        if is_listed(tables, number, *root) {
            return Some(*root);
        }
    }
    None
}

fn root_item(root: Root) -> Item
    ensures { result ≡ root_item (plain_root root) }
{
    match root {
        Root::Own(x) => Item::Variable(x),
        Root::Shared(item) => item,
    }
}

fn alias(line: u32, root: Root) -> FrameFault
    ensures { result ≡ alias line (plain_root root) }
{
    FrameFault::Alias(line, root_item(root), root_item(root))
}

// Where the roots of VAR arguments meet, or one is an item of the callee's list.
pub(crate) fn meeting_fault(
    tables: &[Allowed],
    own: &NameSet,
    alloc: Global,
    call: &Call,
) -> Result<Option<FrameFault>, AllocError>
    ensures { IfOk result (λ o. o ≡ meeting_in (map allows tables.now) (named own.now) call.now) }
{
    let roots = place_roots(own, alloc, call.arguments.as_slice())?;
    let shared = listed(tables, call.routine, roots.as_slice());
    if let Some(root) = twice(alloc, roots)? {
        return Ok(Some(alias(call.line, root)));
    }
    match shared {
        Some(root) => Ok(Some(alias(call.line, root))),
        None => Ok(None),
    }
}
