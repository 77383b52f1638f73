// All terms of an arena, made in another one.

ghost use Rattle.std.specs.Prelude.{◌≡◌, ◌<◌, ◌++◌, ◌∷◌, [], length, Some, IfOk, OnOk};
ghost use Rattle.spv_term.specs.Arena.{tree, Extends};
ghost use Rattle.spv_rounds.specs.moving.Moves.{moved_id, AreMoves, IsMove, Was};

use crate::moving::terms::{moved, moved_all};
use spv_term::{TermFault, TermId, Terms};
use std::alloc::{AllocError, Global};

// Makes a term of an arena in another one, in which its arguments stand.
fn bring_one(
    alloc: Global,
    own: &mut Terms,
    from: &Terms,
    places: &[Option<TermId>],
    t: TermId,
) -> Result<TermId, TermFault>
    requires shapes { from.now.shapes ≡ own.old.shapes }
    requires decls { from.now.decls ≡ own.old.decls }
    requires t { t.0 < length from.now.nodes }
    requires places { AreMoves from.now own.old places.now }
    ensures moved { IfOk result (IsMove from.now own.new t) }
    ensures grows { Extends own.old own.new }
{
    from.law_arena();
    own.law_arena();
    let node = from.node(t);
    let args = moved_all(alloc, places, node.args.as_slice())?;
    own.make(node.head, args.as_slice())
}

// Puts the place of the next term behind the others.
fn push(places: &mut Vec<Option<TermId>>, u: TermId) -> Result<(), AllocError>
    ensures { OnOk result (places.new.items ≡ places.old.items ++ Some u ∷ []) }
{
    places.push(Some(u))?;
    Ok(())
}

/// Makes all terms of an arena in another one, and says where each stands there.
pub fn bring(alloc: Global, own: &mut Terms, from: &Terms) -> Result<Vec<Option<TermId>>, TermFault>
    requires shapes { from.now.shapes ≡ own.old.shapes }
    requires decls { from.now.decls ≡ own.old.decls }
    ensures moves { IfOk result (λ places. AreMoves from.now own.new places.items) }
    ensures grows { Extends own.old own.new }
{
    let mut places = Vec::new(alloc);
    for id in 0..from.len() {
        let u = bring_one(alloc, own, from, places.as_slice(), TermId(id))?;
        push(&mut places, u)?;
    }
    Ok(places)
}

// So many ids of which no place is known.
fn nowhere(alloc: Global, count: u32) -> Result<Vec<Option<TermId>>, AllocError>
    ensures { IfOk result (λ places. (t : TermId) (u : TermId) → moved_id places.items t ≡ Some u → ⊥) }
{
    let mut places = Vec::new(alloc);
    for _ in 0..count {
        places.push(None)?;
    }
    Ok(places)
}

// Says where a term stands, if its place is among these.
fn put(places: &mut Vec<Option<TermId>>, u: TermId, t: TermId)
    ensures { (v : TermId) (w : TermId) → moved_id places.new.items v ≡ Some w → Was u t v w (moved_id places.old.items v ≡ Some w) }
{
    if let Some(place) = places.get_mut(u.0 as usize) {
        *place = Some(t);
    }
}

/// Where the terms of an arena stand in one all of whose terms stand in it at these places. There is no memory where a place is not known.
pub fn back(
    alloc: Global,
    places: &[Option<TermId>],
    own: &Terms,
    from: &Terms,
) -> Result<Vec<Option<TermId>>, AllocError>
    requires { AreMoves from.now own.now places.now }
    ensures { IfOk result (λ found. AreMoves own.now from.now found.items) }
{
    let mut found = nowhere(alloc, own.len())?;
    for id in 0..from.len() {
        let u = moved(places, TermId(id))?;
        put(&mut found, u, TermId(id));
    }
    Ok(found)
}
