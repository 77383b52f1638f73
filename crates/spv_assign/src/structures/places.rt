// The place that a designator stands for: what stands there, and the whole with something else there.

ghost use Rattle.std.specs.Prelude.{◌<◌, length, IsSome};
ghost use Rattle.spv_logic.specs.Sorts.{term_sort};
ghost use Rattle.spv_term.specs.Arena.{tree};
ghost use Rattle.spv_program.specs.Places as place;
ghost use Rattle.spv_assign.specs.structures.Making.{GivesTerm};
ghost use Rattle.spv_assign.specs.structures.Steps.{AreSteps, steps_in};
ghost use Rattle.spv_assign.specs.structures.Targets.{IsTarget, changed_cell, read_of_cell, target_in};

use crate::structures::class::{cell, set_cell};
use crate::structures::elements::{Step, read_path, write_path};
use spv_logic::list::List;
use spv_term::{TermFault, TermId, Terms};
use std::alloc::Global;

/// A place in terms: the variable that it is in, or with a pointer the class of the cell, and the steps from there.
#[derive(Drop)]
pub struct Target {
    /// The variable, or the class.
    pub root: TermId,
    /// The pointer to the cell, where the place is in one.
    pub pointer: Option<TermId>,
    /// The steps from the variable, or from the content of the cell.
    pub path: List<Step>,
}

// What stands behind a path in the content of a cell.
fn read_in_cell(
    terms: &mut Terms,
    class: TermId,
    q: TermId,
    path: &[Step],
) -> Result<TermId, TermFault>
    requires class { class.0 < length terms.old.nodes }
    requires q { q.0 < length terms.old.nodes }
    requires path { AreSteps terms.old path.now }
    requires sorts { IsSome (term_sort terms.old.shapes terms.old.decls (read_of_cell (tree terms.old class) (tree terms.old q) (steps_in terms.old path.now))) }
    ensures { GivesTerm result (read_of_cell (tree terms.old class) (tree terms.old q) (steps_in terms.old path.now)) terms.old terms.new }
{
    let content = cell(terms, class, q)?;
    read_path(terms, content, path)
}

/// What stands at a place. `Size` comes only where the arena is full and a part of the term is not there; nothing but parts
/// of it is added, also before an error.
pub fn present(terms: &mut Terms, d: &Target) -> Result<TermId, TermFault>
    requires target { IsTarget terms.old d.now }
    requires sorts { IsSome (term_sort terms.old.shapes terms.old.decls (place.present (target_in terms.old d.now))) }
    ensures { GivesTerm result (place.present (target_in terms.old d.now)) terms.old terms.new }
{
    terms.law_arena();
    let path = d.path.as_slice();
    match d.pointer {
        None => read_path(terms, d.root, path),
        Some(q) => read_in_cell(terms, d.root, q, path),
    }
}

// A class with something else behind a path in the content of a cell, where there is a path.
fn write_in_content(
    terms: &mut Terms,
    alloc: Global,
    class: TermId,
    q: TermId,
    path: &[Step],
    v: TermId,
) -> Result<TermId, TermFault>
    requires class { class.0 < length terms.old.nodes }
    requires q { q.0 < length terms.old.nodes }
    requires path { AreSteps terms.old path.now }
    requires steps { 0 < length path.now }
    requires v { v.0 < length terms.old.nodes }
    requires sorts { IsSome (term_sort terms.old.shapes terms.old.decls (changed_cell (tree terms.old class) (tree terms.old q) (steps_in terms.old path.now) (tree terms.old v))) }
    ensures { GivesTerm result (changed_cell (tree terms.old class) (tree terms.old q) (steps_in terms.old path.now) (tree terms.old v)) terms.old terms.new }
{
    let content = cell(terms, class, q)?;
    let changed = write_path(terms, alloc, content, path, v)?;
    set_cell(terms, class, q, changed)
}

// A class with something else behind a path in the content of a cell.
fn write_in_cell(
    terms: &mut Terms,
    alloc: Global,
    class: TermId,
    q: TermId,
    path: &[Step],
    v: TermId,
) -> Result<TermId, TermFault>
    requires class { class.0 < length terms.old.nodes }
    requires q { q.0 < length terms.old.nodes }
    requires path { AreSteps terms.old path.now }
    requires v { v.0 < length terms.old.nodes }
    requires sorts { IsSome (term_sort terms.old.shapes terms.old.decls (changed_cell (tree terms.old class) (tree terms.old q) (steps_in terms.old path.now) (tree terms.old v))) }
    ensures { GivesTerm result (changed_cell (tree terms.old class) (tree terms.old q) (steps_in terms.old path.now) (tree terms.old v)) terms.old terms.new }
{
    match path {
        [] => set_cell(terms, class, q, v),
        [_, ..] => write_in_content(terms, alloc, class, q, path, v),
    }
}

/// The variable or class of a place as a whole, with something else at the place. `Size` comes only where the arena is full
/// and a part of the term is not there; nothing but parts of it is added, also before an error.
pub fn whole_with(
    terms: &mut Terms,
    alloc: Global,
    d: &Target,
    v: TermId,
) -> Result<TermId, TermFault>
    requires target { IsTarget terms.old d.now }
    requires v { v.0 < length terms.old.nodes }
    requires sorts { IsSome (term_sort terms.old.shapes terms.old.decls (place.whole_with (target_in terms.old d.now) (tree terms.old v))) }
    ensures { GivesTerm result (place.whole_with (target_in terms.old d.now) (tree terms.old v)) terms.old terms.new }
{
    terms.law_arena();
    let path = d.path.as_slice();
    match d.pointer {
        None => write_path(terms, alloc, d.root, path, v),
        Some(q) => write_in_cell(terms, alloc, d.root, q, path, v),
    }
}
