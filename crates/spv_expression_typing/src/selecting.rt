// Selectors in expressions.

ghost use Rattle.std.specs.Prelude.{◌≡◌, IfOk, IfErr, Ok};
ghost use Rattle.spv_program.specs.Types.{form_at};
ghost use Rattle.spv_typing.specs.ExpressionWalk as spec;
ghost use Rattle.spv_environments.specs.Answers.{Stops};
ghost use Rattle.spv_formula_typing.specs.Operands.{operand_of, operands_of};
ghost use Rattle.spv_expression_typing.specs.Selected.{content_at, element_at, field_at, indexed_in, is_record};

use crate::reached::{Reached, boxed};
use crate::settling::settled_expression;
use spv_environments::Known;
use spv_formula_typing::Operand;
use spv_logic::{Sort, TypeId};
use spv_program::TypeForm;
use spv_program::typed::{Expression, Selector};
use spv_tree::syntax::Name;
use spv_typing::TypeFault;
use std::alloc::Global;

fn is_record(known: &Known, t: TypeId) -> bool
    ensures { result ≡ is_record (form_at known.now.program.forms t.0) }
{
    match known.form(t) {
        None => true,
        Some(TypeForm::Record(_)) => true,
        Some(_) => false,
    }
}

/// `.x`
#[tactic(auto, using(crate::proofs::Fields::no_record, crate::proofs::Fields::no_field, crate::proofs::Fields::has_field))]
pub(crate) fn field_at(known: &Known, line: u32, r: Reached, x: Name) -> Result<Reached, TypeFault>
    ensures ok { IfOk result (λ s. field_at known.now.program.forms line r x ≡ Ok s) }
    ensures err { IfErr result (λ e. Stops e (field_at known.now.program.forms line r x)) }
{
    if !r.may_be_selected() {
        return Err(TypeFault::WrongType(line));
    }
    if !is_record(known, r.of()) {
        return Err(TypeFault::WrongType(line));
    }
    match known.field_type(r.of(), x.symbol) {
        Some(t) => {
            let selector = Selector::Field(r.of(), x.symbol);
            Ok(r.further(selector, t)?)
        }
        None => Err(TypeFault::Undeclared(x.line, x.symbol)),
    }
}

/// `^` on the line `at`.
pub(crate) fn content_at(
    known: &Known,
    line: u32,
    at: u32,
    r: Reached,
) -> Result<Reached, TypeFault>
    ensures ok { IfOk result (λ s. content_at known.now.program.forms line at r ≡ Ok s) }
    ensures err { IfErr result (λ e. Stops e (content_at known.now.program.forms line at r)) }
{
    if !r.may_be_selected() {
        return Err(TypeFault::WrongType(line));
    }
    match known.target(r.of()) {
        Some(t) => Ok(r.further(Selector::Cell(at, t), t)?),
        None => Err(TypeFault::WrongType(line)),
    }
}

// Whether there are arrays inside arrays for so many indices.
#[tactic(auto, using(crate::proofs::Indices::index_more, crate::proofs::Indices::index_missing))]
fn takes_indices(known: &Known, of: TypeId, indices: &[(u32, Operand<Expression>)]) -> bool
    ensures { result ≡ spec.takes_indices known.now.program.forms of (operands_of indices.now) }
{
    let mut inside = of;
    for _ in indices {
        match known.element_type(inside) {
            Some(element) => inside = element,
            None => return false,
        }
    }
    true
}

// An element at one index.
fn element(
    known: &Known,
    alloc: Global,
    r: Reached,
    line: u32,
    index: Operand<Expression>,
) -> Result<Reached, TypeFault>
    ensures ok { IfOk result (λ s. element_at known.now.program.forms r line (operand_of index) ≡ Ok s) }
    ensures err { IfErr result (λ e. Stops e (element_at known.now.program.forms r line (operand_of index))) }
{
    let place = settled_expression(line, Sort::Int, index)?;
    match known.element_type(r.of()) {
        Some(t) => {
            let selector = Selector::Index(r.of(), boxed(alloc, place)?);
            Ok(r.further(selector, t)?)
        }
        None => Err(TypeFault::WrongType(line)),
    }
}

/// An element, or an element of an element, at indices with their lines.
pub(crate) fn indexed_at(
    known: &Known,
    alloc: Global,
    line: u32,
    r: Reached,
    indices: Vec<(u32, Operand<Expression>)>,
) -> Result<Reached, TypeFault>
    ensures ok { IfOk result (λ s. indexed_in known.now.program.forms line r (operands_of indices.items) ≡ Ok s) }
    ensures err { IfErr result (λ e. Stops e (indexed_in known.now.program.forms line r (operands_of indices.items))) }
{
    if !r.may_be_selected() || known.element_type(r.of()).is_none() {
        return Err(TypeFault::WrongType(line));
    }
    if !takes_indices(known, r.of(), indices.as_slice()) {
        return Err(TypeFault::Count(line));
    }
    let mut reached = r;
    for (at, index) in indices {
        reached = element(known, alloc, reached, at, index)?;
    }
    Ok(reached)
}
