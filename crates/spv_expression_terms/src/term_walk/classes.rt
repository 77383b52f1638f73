// The classes of the cells that selectors lead to.

ghost use Rattle.std.specs.Prelude.{OnOk};
ghost use Rattle.spv_expression_terms.specs.term_walk.Selectors.{class_of, classes_of};
ghost use Rattle.spv_expression_terms.specs.term_walk.Written.{Adds};

use crate::postfix::Piece;
use crate::term_walk::heads::write;
use spv_logic::Head;
use spv_program::typed::Selector;
use std::alloc::AllocError;

// Writes the class of the cells of a `^`, and nothing of another selector.
fn write_class(pieces: &mut Vec<Piece>, selector: &Selector) -> Result<(), AllocError>
    ensures { OnOk result (Adds (class_of selector.now) pieces.old.items pieces.new.items) }
{
    match selector {
        Selector::Index(_, _) => Ok(()),
        Selector::Field(_, _) => Ok(()),
        Selector::Cell(_, t) => write(pieces, Head::ClassVar(*t, 0), 0),
    }
}

// Writes the classes of selectors, from the last to the first.
pub(crate) fn write_classes(
    pieces: &mut Vec<Piece>,
    selectors: &[Selector],
) -> Result<(), AllocError>
    ensures { OnOk result (Adds (classes_of selectors.now) pieces.old.items pieces.new.items) }
{
    let mut left = selectors.len();
    while left > 0 {
        left -= 1;
        write_class(pieces, &selectors[left])?;
    }
    Ok(())
}
