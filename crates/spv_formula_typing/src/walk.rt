// The walk over a formula, in the order of the text, operands before their operator.

ghost use Rattle.std.specs.Prelude.{◌≡◌, [], ◌∷◌, ◌++◌, IfOk, IfErr, OnOk, Ok};
ghost use Rattle.spv_tree.specs.syntax.Formulas as plain;
ghost use Rattle.spv_tree.specs.syntax.FormulaViews.{conclusion_of};
ghost use Rattle.spv_tree.specs.syntax.Lines.{relation_line};
ghost use Rattle.spv_tree.specs.syntax.Model.FormulaSizes.{more_formulas_of, selectors_of};
ghost use Rattle.spv_typing.specs.OperatorWalk as spec;
ghost use Rattle.spv_environments.specs.Answers.{Stops};
ghost use Rattle.spv_formula_typing.specs.Operands.{operand_of, operands_of};
ghost use Rattle.spv_formula_typing.specs.Arguments.{given_of, given_one, given_as, all_given, argument_of, arguments_of};
ghost use Rattle.spv_formula_typing.specs.declared.forms.Way.TheVariants.{Place};

use crate::alone::{designator_alone, name_alone, number_alone};
use crate::forms::{Forms, Given, Operand, Way};
use crate::operators::{conclusion, negative, opposite, positive, product, related, total};
use spv_logic::Sort;
use spv_tree::syntax::{
    Designator, Factor, FactorForm, Formula, FormulaForm, Name, PlusOrMinus, Relation, Selector,
    SelectorForm, Simple, Term, items,
};
use spv_typing::TypeFault;
use std::alloc::{AllocError, Global};

// The first item of a list, in room for one alone.
fn push_first<T: Drop>(items: &mut Vec<T>, item: T) -> Result<(), AllocError>
    ensures { OnOk result (items.new.items ≡ items.old.items ++ item ∷ []) }
{
    items.reserve_exact(1)?;
    items.push(item)?;
    Ok(())
}

/// Puts an item at the end of a list. Most applications have one argument, so the first item takes room for one alone.
pub fn push<T: Drop>(items: &mut Vec<T>, item: T) -> Result<(), AllocError>
    ensures { OnOk result (items.new.items ≡ items.old.items ++ item ∷ []) }
{
    if items.is_empty() {
        return push_first(items, item);
    }
    items.push(item)?;
    Ok(())
}

/// What a formula becomes.
#[cycle(formulas)]
#[inline(never)]
pub fn formula<F: Forms>(
    forms: &F,
    alloc: Global,
    tree: &Formula,
) -> Result<Operand<F::Formed>, TypeFault>
    ensures ok { IfOk result (λ o. spec.formula_walk (F.forms forms.now) tree.now ≡ Ok (operand_of o)) }
    ensures err { IfErr result (λ e. Stops e (spec.formula_walk (F.forms forms.now) tree.now)) }
{
    match &tree.form {
        FormulaForm::Factor(alone) => factor(forms, alloc, alone),
        FormulaForm::Implication(whole) => implied(forms, alloc, &whole.left, &whole.right),
    }
}

#[cycle(formulas)]
#[inline(never)]
fn implied<F: Forms>(
    forms: &F,
    alloc: Global,
    left: &Relation,
    right: &Option<Formula>,
) -> Result<Operand<F::Formed>, TypeFault>
    ensures ok { IfOk result (λ o. spec.formula_walk (F.forms forms.now) (plain.formula (relation_line left.now) left.now (conclusion_of right.now)) ≡ Ok (operand_of o)) }
    ensures err { IfErr result (λ e. Stops e (spec.formula_walk (F.forms forms.now) (plain.formula (relation_line left.now) left.now (conclusion_of right.now)))) }
{
    match right {
        None => relation(forms, alloc, left),
        Some(behind) => {
            let line = left.line();
            let a = relation(forms, alloc, left)?;
            let b = formula(forms, alloc, behind)?;
            conclusion(forms, alloc, line, a, b)
        }
    }
}

#[cycle(formulas)]
#[inline(never)]
fn relation<F: Forms>(
    forms: &F,
    alloc: Global,
    tree: &Relation,
) -> Result<Operand<F::Formed>, TypeFault>
    ensures ok { IfOk result (λ o. spec.relation_walk (F.forms forms.now) tree.now ≡ Ok (operand_of o)) }
    ensures err { IfErr result (λ e. Stops e (spec.relation_walk (F.forms forms.now) tree.now)) }
{
    match &tree.right {
        None => simple(forms, alloc, &tree.left),
        Some(side) => {
            let left = simple(forms, alloc, &tree.left)?;
            let right = simple(forms, alloc, &side.1)?;
            related(forms, alloc, tree.line(), side.0, left, right)
        }
    }
}

// The first term with the sign in front of it.
#[inline(never)]
fn with_sign<F: Forms>(
    forms: &F,
    alloc: Global,
    line: u32,
    prefix: Option<PlusOrMinus>,
    tree: &Term,
    a: Operand<F::Formed>,
) -> Result<Operand<F::Formed>, TypeFault>
    ensures ok { IfOk result (λ o. spec.with_sign (F.forms forms.now) line prefix tree.now (operand_of a) ≡ Ok (operand_of o)) }
    ensures err { IfErr result (λ e. Stops e (spec.with_sign (F.forms forms.now) line prefix tree.now (operand_of a))) }
{
    match prefix {
        None => Ok(a),
        Some(PlusOrMinus::Plus) => positive(forms, line, a),
        Some(PlusOrMinus::Minus) => match number_alone(tree) {
            Some(n) => Ok(Operand::Of(forms.numeral(-n), Sort::Int)),
            None => negative(forms, alloc, line, a),
        },
    }
}

#[cycle(formulas)]
#[inline(never)]
fn simple<F: Forms>(
    forms: &F,
    alloc: Global,
    tree: &Simple,
) -> Result<Operand<F::Formed>, TypeFault>
    ensures ok { IfOk result (λ o. spec.simple_walk (F.forms forms.now) tree.now ≡ Ok (operand_of o)) }
    ensures err { IfErr result (λ e. Stops e (spec.simple_walk (F.forms forms.now) tree.now)) }
{
    let first = term(forms, alloc, &tree.first)?;
    let line = tree.line;
    let mut so_far = with_sign(forms, alloc, line, tree.prefix, &tree.first, first)?;
    for (operator, part) in &tree.more {
        let next = term(forms, alloc, part)?;
        so_far = total(forms, alloc, line, *operator, so_far, next)?;
    }
    Ok(so_far)
}

#[cycle(formulas)]
#[inline(never)]
fn term<F: Forms>(forms: &F, alloc: Global, tree: &Term) -> Result<Operand<F::Formed>, TypeFault>
    ensures ok { IfOk result (λ o. spec.term_walk (F.forms forms.now) tree.now ≡ Ok (operand_of o)) }
    ensures err { IfErr result (λ e. Stops e (spec.term_walk (F.forms forms.now) tree.now)) }
{
    let line = tree.line();
    let mut so_far = factor(forms, alloc, &tree.first)?;
    for (operator, part) in &tree.more {
        let next = factor(forms, alloc, part)?;
        so_far = product(forms, alloc, line, *operator, so_far, next)?;
    }
    Ok(so_far)
}

#[cycle(formulas)]
#[inline(never)]
fn factor<F: Forms>(
    forms: &F,
    alloc: Global,
    tree: &Factor,
) -> Result<Operand<F::Formed>, TypeFault>
    ensures ok { IfOk result (λ o. spec.factor_walk (F.forms forms.now) tree.now ≡ Ok (operand_of o)) }
    ensures err { IfErr result (λ e. Stops e (spec.factor_walk (F.forms forms.now) tree.now)) }
{
    match &tree.form {
        FactorForm::Number(_, n) => Ok(Operand::Of(forms.numeral(n.value()), Sort::Int)),
        FactorForm::Truth(_, value) => Ok(Operand::Of(forms.boolean(*value), Sort::Bool)),
        FactorForm::Nil(line) => Ok(Operand::Nil(*line)),
        FactorForm::Class(line, x) => forms.class_of(*line, *x),
        FactorForm::Place(place) => {
            let reached = read(forms, alloc, place)?;
            Ok(forms.finish(alloc, reached)?)
        }
        FactorForm::Application(x, given) => {
            let called = application(forms, alloc, x.line, *x, &given.first, &given.more)?;
            let reached = selectors(forms, alloc, x.line, called, &given.behind)?;
            Ok(forms.finish(alloc, reached)?)
        }
        FactorForm::Bracketed(_, inside) => formula(forms, alloc, inside),
        FactorForm::Negation(line, negated) => {
            let a = factor(forms, alloc, negated)?;
            opposite(forms, alloc, *line, a)
        }
    }
}

// A designator that is read.
#[cycle(formulas)]
#[inline(never)]
fn read<F: Forms>(forms: &F, alloc: Global, tree: &Designator) -> Result<F::Reached, TypeFault>
    ensures ok { IfOk result (λ r. spec.designator_walk (F.forms forms.now) (F.forms forms.now).begin tree.now ≡ Ok r) }
    ensures err { IfErr result (λ e. Stops e (spec.designator_walk (F.forms forms.now) (F.forms forms.now).begin tree.now)) }
{
    let start = forms.begin(alloc, tree.name.line, tree.name)?;
    selectors(forms, alloc, tree.name.line, start, &tree.behind)
}

/// What a designator that is written comes to.
#[cycle(formulas)]
pub fn written<F: Forms>(
    forms: &F,
    alloc: Global,
    tree: &Designator,
) -> Result<F::Reached, TypeFault>
    ensures ok { IfOk result (λ r. spec.designator_walk (F.forms forms.now) (F.forms forms.now).begin_written tree.now ≡ Ok r) }
    ensures err { IfErr result (λ e. Stops e (spec.designator_walk (F.forms forms.now) (F.forms forms.now).begin_written tree.now)) }
{
    let start = forms.begin_written(alloc, tree.name.line, tree.name)?;
    selectors(forms, alloc, tree.name.line, start, &tree.behind)
}

#[cycle(formulas)]
#[inline(never)]
fn selectors<F: Forms>(
    forms: &F,
    alloc: Global,
    line: u32,
    start: F::Reached,
    behind: &[Selector],
) -> Result<F::Reached, TypeFault>
    ensures ok { IfOk result (λ r. spec.selectors_walk (F.forms forms.now) line start (selectors_of behind.now) ≡ Ok r) }
    ensures err { IfErr result (λ e. Stops e (spec.selectors_walk (F.forms forms.now) line start (selectors_of behind.now))) }
{
    let mut reached = start;
    for one in behind {
        reached = selector(forms, alloc, line, reached, one)?;
    }
    Ok(reached)
}

#[cycle(formulas)]
#[inline(never)]
fn selector<F: Forms>(
    forms: &F,
    alloc: Global,
    line: u32,
    reached: F::Reached,
    tree: &Selector,
) -> Result<F::Reached, TypeFault>
    ensures ok { IfOk result (λ r. spec.selector_walk (F.forms forms.now) line reached tree.now ≡ Ok r) }
    ensures err { IfErr result (λ e. Stops e (spec.selector_walk (F.forms forms.now) line reached tree.now)) }
{
    match &tree.form {
        SelectorForm::Index(first, more) => {
            let indices = operands(forms, alloc, first, items(more))?;
            forms.indexed(alloc, line, reached, indices)
        }
        SelectorForm::Field(x) => forms.field_of(alloc, line, reached, *x),
        SelectorForm::Content => forms.content_of(alloc, line, tree.line, reached),
    }
}

// A name with arguments.
#[cycle(formulas)]
#[inline(never)]
fn application<F: Forms>(
    forms: &F,
    alloc: Global,
    line: u32,
    x: Name,
    first: &Formula,
    more: &[Formula],
) -> Result<F::Reached, TypeFault>
    ensures ok { IfOk result (λ r. (F.forms forms.now).apply line x (arguments_of (F.forms forms.now) first.now more.now) ≡ Ok r) }
    ensures err { IfErr result (λ e. Stops e ((F.forms forms.now).apply line x (arguments_of (F.forms forms.now) first.now more.now))) }
{
    let callee = forms.callee(line, x)?;
    let given = arguments(forms, alloc, &callee, first, more)?;
    forms.applied(alloc, line, x, callee, given)
}

/// The arguments of what is called, as it wants them read, each with its line.
#[cycle(formulas)]
#[inline(never)]
pub fn arguments<F: Forms>(
    forms: &F,
    alloc: Global,
    callee: &F::Callee,
    first: &Formula,
    more: &[Formula],
) -> Result<Vec<(u32, Given<F::Formed, F::Reached>)>, TypeFault>
    ensures ok { IfOk result (λ gs. given_as (F.way_of forms.now callee.now) 0 (arguments_of (F.forms forms.now) first.now more.now) ≡ Ok (all_given gs.items)) }
    ensures err { IfErr result (λ e. Stops e (given_as (F.way_of forms.now callee.now) 0 (arguments_of (F.forms forms.now) first.now more.now))) }
{
    let mut given = Vec::new(alloc);
    let one = argument(forms, alloc, callee, 0, first)?;
    push(&mut given, (first.line(), one))?;
    let mut place = 0;
    for other in more {
        place += 1;
        let next = argument(forms, alloc, callee, place, other)?;
        push(&mut given, (other.line(), next))?;
    }
    Ok(given)
}

#[cycle(formulas)]
#[inline(never)]
fn argument<F: Forms>(
    forms: &F,
    alloc: Global,
    callee: &F::Callee,
    place: usize,
    tree: &Formula,
) -> Result<Given<F::Formed, F::Reached>, TypeFault>
    ensures ok { IfOk result (λ g. given_one (F.way_of forms.now callee.now place) (argument_of (F.forms forms.now) tree.now) ≡ Ok (given_of g)) }
    ensures err { IfErr result (λ e. Stops e (given_one (F.way_of forms.now callee.now place) (argument_of (F.forms forms.now) tree.now))) }
{
    match forms.way(callee, place) {
        Way::Value => Ok(Given::Value(formula(forms, alloc, tree)?)),
        Way::Place => as_place(forms, alloc, tree),
        Way::Field => Ok(Given::Field(name_alone(tree))),
    }
}

#[cycle(formulas)]
#[tactic(auto, using(crate::proofs::Places::place_given, crate::proofs::Places::no_place_given))]
#[inline(never)]
fn as_place<F: Forms>(
    forms: &F,
    alloc: Global,
    tree: &Formula,
) -> Result<Given<F::Formed, F::Reached>, TypeFault>
    ensures ok { IfOk result (λ g. given_one Place (argument_of (F.forms forms.now) tree.now) ≡ Ok (given_of g)) }
    ensures err { IfErr result (λ e. Stops e (given_one Place (argument_of (F.forms forms.now) tree.now))) }
{
    match designator_alone(tree) {
        Some(place) => Ok(Given::Place(written(forms, alloc, place)?)),
        None => {
            let _ = formula(forms, alloc, tree)?;
            Ok(Given::NoPlace)
        }
    }
}

#[cycle(formulas)]
#[inline(never)]
fn operands<F: Forms>(
    forms: &F,
    alloc: Global,
    first: &Formula,
    more: &[Formula],
) -> Result<Vec<(u32, Operand<F::Formed>)>, TypeFault>
    ensures ok { IfOk result (λ os. spec.operands (arguments_of (F.forms forms.now) first.now more.now) ≡ Ok (operands_of os.items)) }
    ensures err { IfErr result (λ e. Stops e (spec.operands (arguments_of (F.forms forms.now) first.now more.now))) }
{
    let mut found = Vec::new(alloc);
    let one = formula(forms, alloc, first)?;
    push(&mut found, (first.line(), one))?;
    for other in more {
        let next = formula(forms, alloc, other)?;
        push(&mut found, (other.line(), next))?;
    }
    Ok(found)
}
