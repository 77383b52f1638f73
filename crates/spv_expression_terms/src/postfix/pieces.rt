// The heads of terms, in postfix order.

ghost use Rattle.std.specs.Prelude.{◌≡◌, ◌++◌, ◌∷◌, [], OnOk, OnErr};
ghost use Rattle.spv_expression_terms.specs.postfix.Postfix.{piece};

use spv_logic::Head;
use std::alloc::AllocError;

/// A head, and how many terms it stands over: as many as end right before it.
#[derive(Clone, Copy, Debug)]
pub struct Piece {
    pub head: Head,
    pub count: usize,
}

/// Puts a head over the last `count` terms behind all pieces.
pub fn put(pieces: &mut Vec<Piece>, head: Head, count: usize) -> Result<(), AllocError>
    ensures put { OnOk result (pieces.new.items ≡ pieces.old.items ++ piece head count ∷ []) }
    ensures unchanged { OnErr result (pieces.new.items ≡ pieces.old.items) }
{
    pieces.push(Piece { head, count })?;
    Ok(())
}
