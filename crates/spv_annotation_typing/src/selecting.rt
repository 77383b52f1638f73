// Selectors in annotations.

ghost use Rattle.std.specs.Prelude.{◌≡◌, IfOk, IfErr, Ok};
ghost use Rattle.spv_logic.specs.Shapes.{fields_of};
ghost use Rattle.spv_program.specs.Programs.{shapes};
ghost use Rattle.spv_typing.specs.FormulaWalk as spec;
ghost use Rattle.spv_environments.specs.Answers.{Stops};
ghost use Rattle.spv_formula_typing.specs.Operands.{operand_of, operands_of};
ghost use Rattle.spv_annotation_typing.specs.Selected.{content_of, element_at, indexed_in};

use crate::settling::settled_formula;
use crate::sorted::{Sorted, boxed};
use spv_environments::Known;
use spv_formula_typing::Operand;
use spv_logic::Sort;
use spv_program::typed::{Formula, FormulaForm};
use spv_tree::syntax::Name;
use spv_typing::TypeFault;
use std::alloc::Global;

// `.x`
pub(crate) fn field_in(
    known: &Known,
    alloc: Global,
    line: u32,
    r: Sorted,
    x: Name,
) -> Result<Sorted, TypeFault>
    ensures ok { IfOk result (λ s. spec.field_in line r x (fields_of (shapes known.now.program) r.sort) ≡ Ok s) }
    ensures err { IfErr result (λ e. Stops e (spec.field_in line r x (fields_of (shapes known.now.program) r.sort))) }
{
    if !known.has_fields(r.sort()) {
        return Err(TypeFault::WrongType(line));
    }
    match known.field_sort(r.sort(), x.symbol) {
        Some(of) => {
            let inside = boxed(alloc, r.into_formula())?;
            Ok(Sorted::new(FormulaForm::Field(inside, x.symbol), of))
        }
        None => Err(TypeFault::Undeclared(x.line, x.symbol)),
    }
}

// `^` on the line `at`.
pub(crate) fn content_at(
    known: &Known,
    alloc: Global,
    line: u32,
    at: u32,
    q: Sorted,
) -> Result<Sorted, TypeFault>
    ensures ok { IfOk result (λ s. content_of known.now line at q ≡ Ok s) }
    ensures err { IfErr result (λ e. Stops e (content_of known.now line at q)) }
{
    match q.sort() {
        Sort::Ptr(t) => {
            let inside = boxed(alloc, q.into_formula())?;
            Ok(Sorted::new(FormulaForm::Content(at, t, inside), known.sort_of(t)))
        }
        _ => Err(TypeFault::WrongType(line)),
    }
}

// Whether there are arrays inside arrays for so many indices.
#[tactic(auto, using(crate::proofs::Indices::index_more, crate::proofs::Indices::index_missing))]
fn takes_indices(known: &Known, of: Sort, indices: &[(u32, Operand<Formula>)]) -> bool
    ensures { result ≡ spec.takes_indices (shapes known.now.program) of (operands_of indices.now) }
{
    let mut inside = of;
    for _ in indices {
        match known.element_sort(inside) {
            Some(element) => inside = element,
            None => return false,
        }
    }
    true
}

// An element at one index.
fn element(
    known: &Known,
    alloc: Global,
    a: Sorted,
    line: u32,
    index: Operand<Formula>,
) -> Result<Sorted, TypeFault>
    ensures ok { IfOk result (λ s. element_at known.now a line (operand_of index) ≡ Ok s) }
    ensures err { IfErr result (λ e. Stops e (element_at known.now a line (operand_of index))) }
{
    let place = settled_formula(line, Sort::Int, index)?;
    match known.element_sort(a.sort()) {
        Some(of) => {
            let array = boxed(alloc, a.into_formula())?;
            let place = boxed(alloc, place)?;
            Ok(Sorted::new(FormulaForm::Element(array, place), of))
        }
        None => Err(TypeFault::WrongType(line)),
    }
}

// An element, or an element of an element, at indices with their lines.
pub(crate) fn indexed_at(
    known: &Known,
    alloc: Global,
    line: u32,
    a: Sorted,
    indices: Vec<(u32, Operand<Formula>)>,
) -> Result<Sorted, TypeFault>
    ensures ok { IfOk result (λ s. indexed_in known.now line a (operands_of indices.items) ≡ Ok s) }
    ensures err { IfErr result (λ e. Stops e (indexed_in known.now line a (operands_of indices.items))) }
{
    if known.element_sort(a.sort()).is_none() {
        return Err(TypeFault::WrongType(line));
    }
    if !takes_indices(known, a.sort(), indices.as_slice()) {
        return Err(TypeFault::Count(line));
    }
    let mut reached = a;
    for (at, index) in indices {
        reached = element(known, alloc, reached, at, index)?;
    }
    Ok(reached)
}
