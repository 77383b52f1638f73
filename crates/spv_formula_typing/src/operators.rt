// Operators and their operands.

ghost use Rattle.std.specs.Prelude.{◌≡◌, Ok, IfOk, IfErr};
ghost use Rattle.spv_logic.specs.declared.types.Sort.TheVariants as sort;
ghost use Rattle.spv_typing.specs.Outcomes.{wrong};
ghost use Rattle.spv_typing.specs.OperatorWalk as spec;
ghost use Rattle.spv_environments.specs.Answers.{Stops};
ghost use Rattle.spv_formula_typing.specs.Operands.{operand_of, negative_operand, positive_operand};

use crate::forms::{Forms, Operand};
use spv_logic::Sort;
use spv_program::{Arithmetic, Comparison, Connective};
use spv_tree::syntax::{Adding, Multiplying};
use spv_typing::TypeFault;
use std::alloc::Global;

/// The operand, where it is of this sort; NIL is one of each pointer sort. Else the fault is told at the line.
pub fn settled<F: Forms>(
    forms: &F,
    line: u32,
    wanted: Sort,
    operand: Operand<F::Formed>,
) -> Result<F::Formed, TypeFault>
    ensures ok { IfOk result (λ x. spec.settled (F.forms forms.now).nil_of (wrong line) wanted (operand_of operand) ≡ Ok x) }
    ensures err { IfErr result (λ e. Stops e (spec.settled (F.forms forms.now).nil_of (wrong line) wanted (operand_of operand))) }
{
    match operand {
        Operand::Of(x, sort) => {
            if sort == wanted {
                Ok(x)
            } else {
                Err(TypeFault::WrongType(line))
            }
        }
        Operand::Nil(_) => match wanted {
            Sort::Ptr(t) => Ok(forms.nil_of(t)),
            _ => Err(TypeFault::WrongType(line)),
        },
    }
}

pub(crate) fn numbers<F: Forms>(
    forms: &F,
    alloc: Global,
    line: u32,
    o: Arithmetic,
    a: Operand<F::Formed>,
    b: Operand<F::Formed>,
) -> Result<Operand<F::Formed>, TypeFault>
    ensures ok { IfOk result (λ x. spec.numbers (F.forms forms.now) line o (operand_of a) (operand_of b) ≡ Ok (operand_of x)) }
    ensures err { IfErr result (λ e. Stops e (spec.numbers (F.forms forms.now) line o (operand_of a) (operand_of b))) }
{
    let x = settled(forms, line, Sort::Int, a)?;
    let y = settled(forms, line, Sort::Int, b)?;
    Ok(Operand::Of(forms.calculated(alloc, o, x, y)?, Sort::Int))
}

pub(crate) fn truths<F: Forms>(
    forms: &F,
    alloc: Global,
    line: u32,
    o: Connective,
    a: Operand<F::Formed>,
    b: Operand<F::Formed>,
) -> Result<Operand<F::Formed>, TypeFault>
    ensures ok { IfOk result (λ x. spec.truths (F.forms forms.now) line o (operand_of a) (operand_of b) ≡ Ok (operand_of x)) }
    ensures err { IfErr result (λ e. Stops e (spec.truths (F.forms forms.now) line o (operand_of a) (operand_of b))) }
{
    let x = settled(forms, line, Sort::Bool, a)?;
    let y = settled(forms, line, Sort::Bool, b)?;
    Ok(Operand::Of(forms.joined(alloc, o, x, y)?, Sort::Bool))
}

// Two factors with an operator between them.
#[inline(never)]
pub(crate) fn product<F: Forms>(
    forms: &F,
    alloc: Global,
    line: u32,
    o: Multiplying,
    a: Operand<F::Formed>,
    b: Operand<F::Formed>,
) -> Result<Operand<F::Formed>, TypeFault>
    ensures ok { IfOk result (λ x. spec.product (F.forms forms.now) line o (operand_of a) (operand_of b) ≡ Ok (operand_of x)) }
    ensures err { IfErr result (λ e. Stops e (spec.product (F.forms forms.now) line o (operand_of a) (operand_of b))) }
{
    match o {
        Multiplying::Times => numbers(forms, alloc, line, Arithmetic::Times, a, b),
        Multiplying::Div => numbers(forms, alloc, line, Arithmetic::Div, a, b),
        Multiplying::Mod => numbers(forms, alloc, line, Arithmetic::Mod, a, b),
        Multiplying::And => truths(forms, alloc, line, Connective::And, a, b),
    }
}

// Two terms with an operator between them.
#[inline(never)]
pub(crate) fn total<F: Forms>(
    forms: &F,
    alloc: Global,
    line: u32,
    o: Adding,
    a: Operand<F::Formed>,
    b: Operand<F::Formed>,
) -> Result<Operand<F::Formed>, TypeFault>
    ensures ok { IfOk result (λ x. spec.total (F.forms forms.now) line o (operand_of a) (operand_of b) ≡ Ok (operand_of x)) }
    ensures err { IfErr result (λ e. Stops e (spec.total (F.forms forms.now) line o (operand_of a) (operand_of b))) }
{
    match o {
        Adding::Plus => numbers(forms, alloc, line, Arithmetic::Plus, a, b),
        Adding::Minus => numbers(forms, alloc, line, Arithmetic::Minus, a, b),
        Adding::Or => truths(forms, alloc, line, Connective::Or, a, b),
    }
}

// NOT before a factor.
#[inline(never)]
pub(crate) fn opposite<F: Forms>(
    forms: &F,
    alloc: Global,
    line: u32,
    a: Operand<F::Formed>,
) -> Result<Operand<F::Formed>, TypeFault>
    ensures ok { IfOk result (λ x. spec.opposite (F.forms forms.now) line (operand_of a) ≡ Ok (operand_of x)) }
    ensures err { IfErr result (λ e. Stops e (spec.opposite (F.forms forms.now) line (operand_of a))) }
{
    let x = settled(forms, line, Sort::Bool, a)?;
    Ok(Operand::Of(forms.negated(alloc, x)?, Sort::Bool))
}

// A sign `-` before a term that is no numeral.
#[inline(never)]
pub(crate) fn negative<F: Forms>(
    forms: &F,
    alloc: Global,
    line: u32,
    a: Operand<F::Formed>,
) -> Result<Operand<F::Formed>, TypeFault>
    ensures ok { IfOk result (λ x. negative_operand (F.forms forms.now) line (operand_of a) ≡ Ok (operand_of x)) }
    ensures err { IfErr result (λ e. Stops e (negative_operand (F.forms forms.now) line (operand_of a))) }
{
    let x = settled(forms, line, Sort::Int, a)?;
    Ok(Operand::Of(forms.negative_of(alloc, x)?, Sort::Int))
}

// A sign `+`, which leaves a number as it is.
#[inline(never)]
pub(crate) fn positive<F: Forms>(
    forms: &F,
    line: u32,
    a: Operand<F::Formed>,
) -> Result<Operand<F::Formed>, TypeFault>
    ensures ok { IfOk result (λ x. positive_operand (F.forms forms.now) line (operand_of a) ≡ Ok (operand_of x)) }
    ensures err { IfErr result (λ e. Stops e (positive_operand (F.forms forms.now) line (operand_of a))) }
{
    let x = settled(forms, line, Sort::Int, a)?;
    Ok(Operand::Of(x, Sort::Int))
}

// Two values of one sort.
fn alike<F: Forms>(
    forms: &F,
    alloc: Global,
    line: u32,
    o: Comparison,
    a: Operand<F::Formed>,
    b: Operand<F::Formed>,
) -> Result<Operand<F::Formed>, TypeFault>
    ensures ok { IfOk result (λ x. spec.alike (F.forms forms.now) line o (operand_of a) (operand_of b) ≡ Ok (operand_of x)) }
    ensures err { IfErr result (λ e. Stops e (spec.alike (F.forms forms.now) line o (operand_of a) (operand_of b))) }
{
    match (a, b) {
        (Operand::Of(x, sort), b) => {
            if !forms.comparable(sort) {
                return Err(TypeFault::WrongType(line));
            }
            let y = settled(forms, line, sort, b)?;
            Ok(Operand::Of(forms.compares(alloc, o, x, y)?, Sort::Bool))
        }
        (Operand::Nil(at), Operand::Of(y, sort)) => {
            if !forms.comparable(sort) {
                return Err(TypeFault::WrongType(line));
            }
            let x = settled(forms, line, sort, Operand::Nil(at))?;
            Ok(Operand::Of(forms.compares(alloc, o, x, y)?, Sort::Bool))
        }
        (Operand::Nil(_), Operand::Nil(_)) => Err(TypeFault::WrongType(line)),
    }
}

// Two numbers in an order.
fn ordered<F: Forms>(
    forms: &F,
    alloc: Global,
    line: u32,
    o: Comparison,
    a: Operand<F::Formed>,
    b: Operand<F::Formed>,
) -> Result<Operand<F::Formed>, TypeFault>
    ensures ok { IfOk result (λ x. spec.ordered (F.forms forms.now) line o (operand_of a) (operand_of b) ≡ Ok (operand_of x)) }
    ensures err { IfErr result (λ e. Stops e (spec.ordered (F.forms forms.now) line o (operand_of a) (operand_of b))) }
{
    let x = settled(forms, line, Sort::Int, a)?;
    let y = settled(forms, line, Sort::Int, b)?;
    Ok(Operand::Of(forms.compares(alloc, o, x, y)?, Sort::Bool))
}

// The two sides of a relation.
#[inline(never)]
pub(crate) fn related<F: Forms>(
    forms: &F,
    alloc: Global,
    line: u32,
    o: spv_tree::syntax::Comparison,
    a: Operand<F::Formed>,
    b: Operand<F::Formed>,
) -> Result<Operand<F::Formed>, TypeFault>
    ensures ok { IfOk result (λ x. spec.related (F.forms forms.now) line o (operand_of a) (operand_of b) ≡ Ok (operand_of x)) }
    ensures err { IfErr result (λ e. Stops e (spec.related (F.forms forms.now) line o (operand_of a) (operand_of b))) }
{
    match o {
        spv_tree::syntax::Comparison::Equal => alike(forms, alloc, line, Comparison::Equal, a, b),
        spv_tree::syntax::Comparison::NotEqual => alike(
            forms,
            alloc,
            line,
            Comparison::NotEqual,
            a,
            b,
        ),
        spv_tree::syntax::Comparison::Less => ordered(forms, alloc, line, Comparison::Less, a, b),
        spv_tree::syntax::Comparison::AtMost => ordered(
            forms,
            alloc,
            line,
            Comparison::AtMost,
            a,
            b,
        ),
        spv_tree::syntax::Comparison::Greater => ordered(
            forms,
            alloc,
            line,
            Comparison::Greater,
            a,
            b,
        ),
        spv_tree::syntax::Comparison::AtLeast => ordered(
            forms,
            alloc,
            line,
            Comparison::AtLeast,
            a,
            b,
        ),
    }
}

// `a -> b`
#[inline(never)]
pub(crate) fn conclusion<F: Forms>(
    forms: &F,
    alloc: Global,
    line: u32,
    a: Operand<F::Formed>,
    b: Operand<F::Formed>,
) -> Result<Operand<F::Formed>, TypeFault>
    ensures ok { IfOk result (λ x. spec.conclusion (F.forms forms.now) line (operand_of a) (operand_of b) ≡ Ok (operand_of x)) }
    ensures err { IfErr result (λ e. Stops e (spec.conclusion (F.forms forms.now) line (operand_of a) (operand_of b))) }
{
    if !forms.may_imply() {
        return Err(TypeFault::WrongType(line));
    }
    let x = settled(forms, line, Sort::Bool, a)?;
    let y = settled(forms, line, Sort::Bool, b)?;
    Ok(Operand::Of(forms.implied(alloc, x, y)?, Sort::Bool))
}
