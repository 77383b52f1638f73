// The row of one relation.

ghost use Rattle.std.specs.Prelude.{◌≡◌, ◌<◌, length, IfOk, IfErr};
ghost use Rattle.spv_term.specs.Arena.{IsArena, tree};
ghost use Rattle.spv_atoms.specs.Linear.{IsFormOf};
ghost use Rattle.spv_arithmetic_side.specs.slack_rows.Rows.{IsFittingRow, IsMisfit, IsWideForm};

use crate::bounds::has_room;
use spv_atoms::{AtomFault, Linear, linear};
use spv_term::{TermId, Terms};
use std::alloc::{AllocError, Global};
use thiserror::Error;

/// Why relations have no rows here.
#[derive(Clone, Copy, PartialEq, Eq, Debug, Error)]
pub enum RowFault {
    /// A form of this relation does not fit.
    #[error("a form of a relation is too wide")]
    Wide(TermId),
    /// There is no memory for the rows.
    #[error("out of memory")]
    Memory,
}

impl From<AllocError> for RowFault {
    ghost use Rattle.std.specs.Prelude.{◌≡◌};
    ghost use Rattle.spv_arithmetic_side.specs.declared.slack_rows.row.RowFault.TheVariants.{Memory};

    ghost from_gives = { λ _ fault. fault ≡ Memory };

    fn from(_: AllocError) -> RowFault {
        RowFault::Memory
    }
}

// The form of a side of a relation.
fn side_form(
    alloc: Global,
    terms: &Terms,
    relation: TermId,
    side: TermId,
) -> Result<Linear, RowFault>
    requires { side.0 < length terms.now.nodes }
    ensures form { IfOk result (λ f. IsFormOf terms.now (tree terms.now side) f) }
    ensures wide { IfErr result (λ fault. IsWideForm (tree terms.now side) relation fault) }
{
    match linear(alloc, terms, side) {
        Ok(form) => Ok(form),
        Err(AtomFault::WideForm(_)) => Err(RowFault::Wide(relation)),
        Err(AtomFault::Memory) => Err(RowFault::Memory),
    }
}

// The form of left - right, the sides of a relation.
pub(crate) fn row_of(
    alloc: Global,
    terms: &Terms,
    relation: TermId,
    left: TermId,
    right: TermId,
) -> Result<Linear, RowFault>
    requires left { left.0 < length terms.now.nodes }
    requires right { right.0 < length terms.now.nodes }
    ensures row { IfOk result (λ f. IsFittingRow terms.now (tree terms.now left, tree terms.now right) f) }
    ensures wide { IfErr result (λ fault. IsMisfit (tree terms.now left, tree terms.now right) relation fault) }
{
    terms.law_arena();
    let left_form = side_form(alloc, terms, relation, left)?;
    let right_form = side_form(alloc, terms, relation, right)?;
    let Some(row) = left_form.minus(alloc, &right_form)? else {
        return Err(RowFault::Wide(relation));
    };
    row.law_linear();
    if has_room(row.constant()) {
        return Ok(row);
    }
    Err(RowFault::Wide(relation))
}
