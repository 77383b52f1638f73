// Elements of arrays, fields of records, and paths of them.

ghost use Rattle.std.specs.Prelude.{◌≡◌, ◌<◌, ◌++◌, [], ◌∷◌, map, length, IsSome, OnOk};
ghost use Rattle.spv_logic.specs.declared.operators.Head.TheVariants as head;
ghost use Rattle.spv_logic.specs.Sorts.{term_sort};
ghost use Rattle.spv_logic.specs.Terms.{Term};
ghost use Rattle.spv_term.specs.Arena.{AllBelow, tree};
ghost use Rattle.spv_program.specs.Terms.{unary, binary, ternary};
ghost use Rattle.spv_program.specs.Places as place;
ghost use Rattle.spv_assign.specs.structures.Making.{GivesTerm, GivesTerms};
ghost use Rattle.spv_assign.specs.structures.Steps.{AreSteps, IsStep, changed_by, step_in, steps_in, structures_before, structures_to};

use crate::structures::making::over;
use spv_logic::Head;
use spv_logic::names::Symbol;
use spv_term::{TermFault, TermId, Terms};
use std::alloc::{AllocError, Global};

/// A step into a structure: to the element of an array at an index, or to a field of a record.
#[derive(Clone, Copy)]
pub enum Step {
    /// To the element at this index.
    Index(TermId),
    /// To this field.
    Field(Symbol),
}

/// The element of an array at an index. `Size` comes only where the arena is full and a part of the term is not there;
/// nothing but parts of it is added.
pub fn select(terms: &mut Terms, a: TermId, i: TermId) -> Result<TermId, TermFault>
    requires a { a.0 < length terms.old.nodes }
    requires i { i.0 < length terms.old.nodes }
    requires sorts { IsSome (term_sort terms.old.shapes terms.old.decls (binary head.Select (tree terms.old a) (tree terms.old i))) }
    ensures { GivesTerm result (binary head.Select (tree terms.old a) (tree terms.old i)) terms.old terms.new }
{
    over(terms, Head::Select, &[a, i])
}

/// An array with another element at an index. `Size` comes only where the arena is full and a part of the term is not
/// there; nothing but parts of it is added.
pub fn store(terms: &mut Terms, a: TermId, i: TermId, v: TermId) -> Result<TermId, TermFault>
    requires a { a.0 < length terms.old.nodes }
    requires i { i.0 < length terms.old.nodes }
    requires v { v.0 < length terms.old.nodes }
    requires sorts { IsSome (term_sort terms.old.shapes terms.old.decls (ternary head.Store (tree terms.old a) (tree terms.old i) (tree terms.old v))) }
    ensures { GivesTerm result (ternary head.Store (tree terms.old a) (tree terms.old i) (tree terms.old v)) terms.old terms.new }
{
    over(terms, Head::Store, &[a, i, v])
}

/// A field of a record. `Size` comes only where the arena is full and a part of the term is not there; nothing but parts of
/// it is added.
pub fn field(terms: &mut Terms, r: TermId, f: Symbol) -> Result<TermId, TermFault>
    requires r { r.0 < length terms.old.nodes }
    requires sorts { IsSome (term_sort terms.old.shapes terms.old.decls (unary (head.Field f) (tree terms.old r))) }
    ensures { GivesTerm result (unary (head.Field f) (tree terms.old r)) terms.old terms.new }
{
    over(terms, Head::Field(f), &[r])
}

/// A record with something else in a field. `Size` comes only where the arena is full and a part of the term is not there;
/// nothing but parts of it is added.
pub fn put(terms: &mut Terms, r: TermId, f: Symbol, v: TermId) -> Result<TermId, TermFault>
    requires r { r.0 < length terms.old.nodes }
    requires v { v.0 < length terms.old.nodes }
    requires sorts { IsSome (term_sort terms.old.shapes terms.old.decls (binary (head.Put f) (tree terms.old r) (tree terms.old v))) }
    ensures { GivesTerm result (binary (head.Put f) (tree terms.old r) (tree terms.old v)) terms.old terms.new }
{
    over(terms, Head::Put(f), &[r, v])
}

// The part that a step leads to.
fn part(terms: &mut Terms, s: TermId, step: Step) -> Result<TermId, TermFault>
    requires s { s.0 < length terms.old.nodes }
    requires step { IsStep terms.old step }
    requires sorts { IsSome (term_sort terms.old.shapes terms.old.decls (place.part (tree terms.old s) (step_in terms.old step))) }
    ensures { GivesTerm result (place.part (tree terms.old s) (step_in terms.old step)) terms.old terms.new }
{
    match step {
        Step::Index(i) => select(terms, s, i),
        Step::Field(f) => field(terms, s, f),
    }
}

// A structure with something else behind a step.
fn changed(terms: &mut Terms, s: TermId, step: Step, v: TermId) -> Result<TermId, TermFault>
    requires s { s.0 < length terms.old.nodes }
    requires step { IsStep terms.old step }
    requires v { v.0 < length terms.old.nodes }
    requires sorts { IsSome (term_sort terms.old.shapes terms.old.decls (changed_by (tree terms.old s) (step_in terms.old step) (tree terms.old v))) }
    ensures { GivesTerm result (changed_by (tree terms.old s) (step_in terms.old step) (tree terms.old v)) terms.old terms.new }
{
    match step {
        Step::Index(i) => store(terms, s, i, v),
        Step::Field(f) => put(terms, s, f, v),
    }
}

/// What stands behind a path of steps. `Size` comes only where the arena is full and a part of the term is not there;
/// nothing but parts of it is added, also before an error.
pub fn read_path(terms: &mut Terms, root: TermId, path: &[Step]) -> Result<TermId, TermFault>
    requires root { root.0 < length terms.old.nodes }
    requires path { AreSteps terms.old path.now }
    requires sorts { IsSome (term_sort terms.old.shapes terms.old.decls (place.part_behind (tree terms.old root) (steps_in terms.old path.now))) }
    ensures { GivesTerm result (place.part_behind (tree terms.old root) (steps_in terms.old path.now)) terms.old terms.new }
{
    let mut t = root;
    for step in path {
        t = part(terms, t, *step)?;
    }
    terms.law_arena();
    Ok(t)
}

// Puts an id behind others.
fn push(found: &mut Vec<TermId>, t: TermId) -> Result<(), AllocError>
    ensures { OnOk result (found.new.items ≡ found.old.items ++ t ∷ []) }
{
    found.push(t)?;
    Ok(())
}

// The structures on the way of a path, from the whole on, and what stands behind all steps.
fn structures(
    terms: &mut Terms,
    alloc: Global,
    root: TermId,
    path: &[Step],
) -> Result<Vec<TermId>, TermFault>
    requires root { root.0 < length terms.old.nodes }
    requires path { AreSteps terms.old path.now }
    requires sorts { IsSome (term_sort terms.old.shapes terms.old.decls (place.part_behind (tree terms.old root) (steps_in terms.old path.now))) }
    ensures { GivesTerms result (λ ts. ts.items) (structures_to (tree terms.old root) (steps_in terms.old path.now)) (place.part_behind (tree terms.old root) (steps_in terms.old path.now)) terms.old terms.new }
{
    let mut found = Vec::new(alloc);
    let mut t = root;
    for step in path {
        push(&mut found, t)?;
        t = part(terms, t, *step)?;
    }
    push(&mut found, t)?;
    Ok(found)
}

// The whole with something else behind a path, where these are the structures before each of its steps: from the innermost one outwards.
fn put_back(
    terms: &mut Terms,
    structures: &[TermId],
    path: &[Step],
    v: TermId,
) -> Result<TermId, TermFault>
    ghost whole: { Term }
    requires structures { AllBelow (length terms.old.nodes) structures.now }
    requires path { AreSteps terms.old path.now }
    requires v { v.0 < length terms.old.nodes }
    requires whole { map (tree terms.old) structures.now ≡ structures_before whole (steps_in terms.old path.now) }
    requires sorts { IsSome (term_sort terms.old.shapes terms.old.decls (place.changed_part whole (steps_in terms.old path.now) (tree terms.old v))) }
    ensures { GivesTerm result (place.changed_part whole (steps_in terms.old path.now) (tree terms.old v)) terms.old terms.new }
{
    let mut made = v;
    let mut left = path.len();
    while left > 0 {
        left -= 1;
        made = changed(terms, structures[left], path[left], made)?;
    }
    terms.law_arena();
    Ok(made)
}

/// The whole with something else behind a path of steps. `Size` comes only where the arena is full and a part of the term is
/// not there; nothing but parts of it is added, also before an error.
pub fn write_path(
    terms: &mut Terms,
    alloc: Global,
    root: TermId,
    path: &[Step],
    v: TermId,
) -> Result<TermId, TermFault>
    requires root { root.0 < length terms.old.nodes }
    requires path { AreSteps terms.old path.now }
    requires v { v.0 < length terms.old.nodes }
    requires sorts { IsSome (term_sort terms.old.shapes terms.old.decls (place.changed_part (tree terms.old root) (steps_in terms.old path.now) (tree terms.old v))) }
    ensures { GivesTerm result (place.changed_part (tree terms.old root) (steps_in terms.old path.now) (tree terms.old v)) terms.old terms.new }
{
    terms.law_arena();
    if path.len() == 0 {
        return Ok(v);
    }
    let found = structures(terms, alloc, root, &path[..path.len() - 1])?;
    put_back(terms, found.as_slice(), path, v)
}
