// Classes of cells.

ghost use Rattle.std.specs.Prelude.{◌<◌, length, IsSome};
ghost use Rattle.spv_logic.specs.declared.operators.Head.TheVariants as head;
ghost use Rattle.spv_logic.specs.Sorts.{term_sort};
ghost use Rattle.spv_term.specs.Arena.{tree};
ghost use Rattle.spv_program.specs.Terms.{binary, ternary};
ghost use Rattle.spv_assign.specs.structures.Making.{GivesTerm};

use crate::structures::making::over;
use spv_logic::Head;
use spv_term::{TermFault, TermId, Terms};

/// The content of the cell of a class that a pointer leads to. `Size` comes only where the arena is full and a part of the
/// term is not there; nothing but parts of it is added.
pub fn cell(terms: &mut Terms, c: TermId, p: TermId) -> Result<TermId, TermFault>
    requires c { c.0 < length terms.old.nodes }
    requires p { p.0 < length terms.old.nodes }
    requires sorts { IsSome (term_sort terms.old.shapes terms.old.decls (binary head.Cell (tree terms.old c) (tree terms.old p))) }
    ensures { GivesTerm result (binary head.Cell (tree terms.old c) (tree terms.old p)) terms.old terms.new }
{
    over(terms, Head::Cell, &[c, p])
}

/// A class with another content in the cell that a pointer leads to. `Size` comes only where the arena is full and a part of
/// the term is not there; nothing but parts of it is added.
pub fn set_cell(terms: &mut Terms, c: TermId, p: TermId, v: TermId) -> Result<TermId, TermFault>
    requires c { c.0 < length terms.old.nodes }
    requires p { p.0 < length terms.old.nodes }
    requires v { v.0 < length terms.old.nodes }
    requires sorts { IsSome (term_sort terms.old.shapes terms.old.decls (ternary head.SetCell (tree terms.old c) (tree terms.old p) (tree terms.old v))) }
    ensures { GivesTerm result (ternary head.SetCell (tree terms.old c) (tree terms.old p) (tree terms.old v)) terms.old terms.new }
{
    over(terms, Head::SetCell, &[c, p, v])
}

/// A class with one cell more, which a pointer leads to, and its content. `Size` comes only where the arena is full and a
/// part of the term is not there; nothing but parts of it is added.
pub fn extend(terms: &mut Terms, c: TermId, p: TermId, v: TermId) -> Result<TermId, TermFault>
    requires c { c.0 < length terms.old.nodes }
    requires p { p.0 < length terms.old.nodes }
    requires v { v.0 < length terms.old.nodes }
    requires sorts { IsSome (term_sort terms.old.shapes terms.old.decls (ternary head.Extend (tree terms.old c) (tree terms.old p) (tree terms.old v))) }
    ensures { GivesTerm result (ternary head.Extend (tree terms.old c) (tree terms.old p) (tree terms.old v)) terms.old terms.new }
{
    over(terms, Head::Extend, &[c, p, v])
}

/// Whether a pointer leads to a cell of a class. `Size` comes only where the arena is full and a part of the term is not
/// there; nothing but parts of it is added.
pub fn pointer_to(terms: &mut Terms, p: TermId, c: TermId) -> Result<TermId, TermFault>
    requires p { p.0 < length terms.old.nodes }
    requires c { c.0 < length terms.old.nodes }
    requires sorts { IsSome (term_sort terms.old.shapes terms.old.decls (binary head.PointerTo (tree terms.old p) (tree terms.old c))) }
    ensures { GivesTerm result (binary head.PointerTo (tree terms.old p) (tree terms.old c)) terms.old terms.new }
{
    over(terms, Head::PointerTo, &[p, c])
}
