// Ids of another arena.

ghost use Rattle.std.specs.Prelude.{◌≡◌, ◌++◌, ◌∷◌, [], Some, IfOk, OnOk};
ghost use Rattle.spv_term.specs.Arena.{Arena};
ghost use Rattle.spv_rounds.specs.moving.Moves.{moved_id, AreMoves, AllMoved};

use spv_logic::list::List;
use spv_term::TermId;
use std::alloc::{AllocError, Global};

// The id of a term in another arena, if it is known.
fn known(places: &[Option<TermId>], t: TermId) -> Option<TermId>
    ensures { result ≡ moved_id places.now t }
{
    match places.get(t.0 as usize) {
        Some(place) => *place,
        None => None,
    }
}

/// The id of a term in another arena. There is no memory where it is not known.
pub(crate) fn moved(places: &[Option<TermId>], t: TermId) -> Result<TermId, AllocError>
    ensures { IfOk result (λ u. moved_id places.now t ≡ Some u) }
{
    match known(places, t) {
        Some(u) => Ok(u),
        None => Err(AllocError),
    }
}

// Puts an id behind others.
fn push(ids: &mut Vec<TermId>, t: TermId) -> Result<(), AllocError>
    ensures { OnOk result (ids.new.items ≡ ids.old.items ++ t ∷ []) }
{
    ids.push(t)?;
    Ok(())
}

/// The ids of terms in another arena. There is no memory where one is not known.
pub(crate) fn moved_all(
    alloc: Global,
    places: &[Option<TermId>],
    ts: &[TermId],
) -> Result<List<TermId>, AllocError>
    ensures { IfOk result (λ us. (a : Arena) (b : Arena) → AreMoves a b places.now → AllMoved a b ts.now us) }
{
    let mut us = Vec::new(alloc);
    for t in ts {
        let u = moved(places, *t)?;
        push(&mut us, u)?;
    }
    Ok(List::from_vec(us))
}
