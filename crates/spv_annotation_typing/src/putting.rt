// PUT: a record, the name of a field, and a value for it.

ghost use Rattle.std.specs.Prelude.{◌≡◌, [], ◌∷◌, IfNone, IfOk, IfErr, IfSome, Ok, length, option_map};
ghost use Rattle.spv_logic.specs.Shapes.{fields_of};
ghost use Rattle.spv_program.specs.Programs.{shapes};
ghost use Rattle.spv_typing.specs.FormulaWalk as spec;
ghost use Rattle.spv_environments.specs.Answers.{Stops};
ghost use Rattle.spv_environments.specs.Scopes.{scope_of};
ghost use Rattle.spv_formula_typing.specs.Operands.{operand_of};
ghost use Rattle.spv_formula_typing.specs.Arguments.{all_given, given_of};
ghost use Rattle.spv_annotation_typing.specs.Applied.{field_in, put_given, put_parts, put_three, value_in};

use crate::settling::settled_formula;
use crate::sorted::Sorted;
use spv_environments::{Known, Scope};
use spv_formula_typing::{Given, Operand, push};
use spv_logic::Sort;
use spv_program::BuiltIn;
use spv_program::typed::{Formula, FormulaForm};
use spv_tree::syntax::Name;
use spv_typing::TypeFault;
use std::alloc::Global;

// The record that begins on a line, with one field changed.
fn put_at(
    known: &Known,
    alloc: Global,
    line: u32,
    x: Name,
    r: Sorted,
    at: u32,
    value: Operand<Formula>,
) -> Result<Sorted, TypeFault>
    ensures ok { IfOk result (λ s. spec.put_at x line r (fields_of (shapes known.now.program) r.sort) (at, operand_of value) ≡ Ok s) }
    ensures err { IfErr result (λ e. Stops e (spec.put_at x line r (fields_of (shapes known.now.program) r.sort) (at, operand_of value))) }
{
    let of = r.sort();
    if !known.has_fields(of) {
        return Err(TypeFault::WrongType(line));
    }
    match known.field_sort(of, x.symbol) {
        Some(wanted) => {
            let content = settled_formula(at, wanted, value)?;
            let mut parts = Vec::new(alloc);
            push(&mut parts, r.into_formula())?;
            push(&mut parts, content)?;
            Ok(Sorted::new(FormulaForm::Known(BuiltIn::Put(x.symbol), parts), of))
        }
        None => Err(TypeFault::Undeclared(x.line, x.symbol)),
    }
}

// PUT with its three arguments, each with its line.
fn put_with(
    scope: &Scope<'_, '_>,
    alloc: Global,
    line: u32,
    x: Option<Name>,
    on: u32,
    whole: Operand<Formula>,
    at: u32,
    value: Operand<Formula>,
) -> Result<Sorted, TypeFault>
    ensures ok { IfOk result (λ s. spec.put_with (scope_of scope.now) line x (on, operand_of whole) (at, operand_of value) ≡ Ok s) }
    ensures err { IfErr result (λ e. Stops e (spec.put_with (scope_of scope.now) line x (on, operand_of whole) (at, operand_of value))) }
{
    let known = scope.known;
    match x {
        None => Err(TypeFault::WrongType(line)),
        Some(x) => match whole {
            Operand::Nil(_) => Err(TypeFault::WrongType(on)),
            Operand::Of(f, of) => put_at(known, alloc, on, x, Sorted::of(f, of), at, value),
        },
    }
}

fn value_of(given: Given<Formula, Sorted>) -> Option<Operand<Formula>>
    ensures { option_map operand_of result ≡ value_in (given_of given) }
{
    match given {
        Given::Value(operand) => Some(operand),
        _ => None,
    }
}

fn field_of(given: Given<Formula, Sorted>) -> Option<Option<Name>>
    ensures { result ≡ field_in (given_of given) }
{
    match given {
        Given::Field(x) => Some(x),
        _ => None,
    }
}

fn put_parts(
    scope: &Scope<'_, '_>,
    alloc: Global,
    line: u32,
    on: u32,
    whole: Option<Operand<Formula>>,
    at: u32,
    x: Option<Option<Name>>,
    behind: u32,
    value: Option<Operand<Formula>>,
) -> Result<Sorted, TypeFault>
    ensures ok { IfOk result (λ s. put_parts (scope_of scope.now) line on at behind (option_map operand_of whole) x (option_map operand_of value) ≡ Ok s) }
    ensures err { IfErr result (λ e. Stops e (put_parts (scope_of scope.now) line on at behind (option_map operand_of whole) x (option_map operand_of value))) }
{
    match x {
        None => Err(TypeFault::Count(line)),
        Some(x) => match whole {
            None => Err(TypeFault::Count(line)),
            Some(r) => match value {
                None => Err(TypeFault::Count(line)),
                Some(v) => put_with(scope, alloc, at, x, on, r, behind, v),
            },
        },
    }
}

#[tactic(auto, using(crate::proofs::Threes::three_popped, crate::proofs::Threes::some_left))]
fn three<T: Drop>(given: Vec<T>) -> Option<(T, T, T)>
    ensures some { IfSome result (λ t. given.items ≡ t.0 ∷ t.1 ∷ t.2 ∷ []) }
    ensures none { IfNone result (length given.items ≡ 3 → ⊥) }
{
    let mut items = given;
    if items.len() != 3 {
        return None;
    }
    let third = items.pop()?;
    let second = items.pop()?;
    let first = items.pop()?;
    Some((first, second, third))
}

fn put_three(
    scope: &Scope<'_, '_>,
    alloc: Global,
    line: u32,
    first: (u32, Given<Formula, Sorted>),
    second: (u32, Given<Formula, Sorted>),
    third: (u32, Given<Formula, Sorted>),
) -> Result<Sorted, TypeFault>
    ensures ok { IfOk result (λ s. put_three (scope_of scope.now) line (first.0, given_of first.1) (second.0, given_of second.1) (third.0, given_of third.1) ≡ Ok s) }
    ensures err { IfErr result (λ e. Stops e (put_three (scope_of scope.now) line (first.0, given_of first.1) (second.0, given_of second.1) (third.0, given_of third.1))) }
{
    let (on, whole) = first;
    let (at, field) = second;
    let (behind, value) = third;
    let r = value_of(whole);
    let x = field_of(field);
    let v = value_of(value);
    put_parts(scope, alloc, line, on, r, at, x, behind, v)
}

/// PUT with its arguments as they were read.
#[tactic(auto, using(crate::proofs::Threes::not_three))]
pub(crate) fn put_applied(
    scope: &Scope<'_, '_>,
    alloc: Global,
    line: u32,
    given: Vec<(u32, Given<Formula, Sorted>)>,
) -> Result<Sorted, TypeFault>
    ensures ok { IfOk result (λ s. put_given (scope_of scope.now) line (all_given given.items) ≡ Ok s) }
    ensures err { IfErr result (λ e. Stops e (put_given (scope_of scope.now) line (all_given given.items))) }
{
    match three(given) {
        Some((first, second, third)) => put_three(scope, alloc, line, first, second, third),
        None => Err(TypeFault::Count(line)),
    }
}
