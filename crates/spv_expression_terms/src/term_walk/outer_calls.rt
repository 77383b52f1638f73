// Which of some variables stand for the calls in an expression.

ghost use Rattle.std.specs.Prelude.{◌≡◌, drop, length};
ghost use Rattle.spv_program.specs.typed.ExpressionViews.{selectors_of};
ghost use Rattle.spv_expression_terms.specs.term_walk.OuterCalls as spec;
ghost use Rattle.spv_expression_terms.specs.term_walk.Selectors as spec_selectors;

use spv_logic::Head;
use spv_program::typed::{Expression, ExpressionForm, Selector};

// The first variable; FALSE where there is none.
pub(crate) fn first_head(variables: &[Head]) -> Head
    ensures { result ≡ spec.first_variable variables.now }
{
    match variables {
        [] => Head::False,
        [first, ..] => *first,
    }
}

// The variables behind the first one.
pub(crate) fn behind_one(variables: &[Head]) -> &[Head]
    ensures { result.now ≡ drop 1 variables.now }
{
    match variables {
        [] => variables,
        [_, others @ ..] => others,
    }
}

// The variables behind those for the calls in an expression. Where there are none, it is not looked at.
#[cycle(outer_calls)]
#[tactic(auto, using(crate::proofs::term_walk::Filled::others_both, crate::proofs::term_walk::Filled::others_through, crate::proofs::term_walk::Filled::others_empty))]
pub(crate) fn for_others<'a>(variables: &'a [Head], e: &Expression) -> &'a [Head]
    ensures { result.now ≡ spec.for_others e.now variables.now }
{
    if variables.len() == 0 {
        return variables;
    }
    match &e.form {
        ExpressionForm::Numeral(_) => variables,
        ExpressionForm::Boolean(_) => variables,
        ExpressionForm::Nil(_) => variables,
        ExpressionForm::Read(d) => behind_selectors(variables, d.selectors.as_slice()),
        ExpressionForm::Result(_) => behind_one(variables),
        ExpressionForm::Through(t) => {
            behind_selectors(behind_one(variables), t.selectors.as_slice())
        }
        ExpressionForm::Negative(a) => for_others(variables, a),
        ExpressionForm::Calculated(_, a, b) => for_others(for_others(variables, a), b),
        ExpressionForm::Compared(_, a, b) => for_others(for_others(variables, a), b),
        ExpressionForm::Negated(a) => for_others(variables, a),
        ExpressionForm::Joined(_, a, b) => for_others(for_others(variables, a), b),
    }
}

// The variables behind those for the calls in selectors.
#[cycle(outer_calls)]
fn behind_selectors<'a>(variables: &'a [Head], selectors: &[Selector]) -> &'a [Head]
    ensures { result.now ≡ drop (length (spec.selectors_outer_calls (selectors_of selectors.now))) variables.now }
{
    let mut left = variables;
    for selector in selectors {
        left = for_other_selectors(left, selector);
    }
    left
}

// The variables behind those for the calls in a selector.
#[cycle(outer_calls)]
pub(crate) fn for_other_selectors<'a>(variables: &'a [Head], selector: &Selector) -> &'a [Head]
    ensures { result.now ≡ spec_selectors.for_other_selectors selector.now variables.now }
{
    match selector {
        Selector::Index(_, e) => for_others(variables, e),
        Selector::Field(_, _) => variables,
        Selector::Cell(_, _) => variables,
    }
}

// The variables for the calls in an expression.
#[tactic(auto, using(crate::proofs::term_walk::Filled::first_cut))]
pub(crate) fn for_first<'a>(variables: &'a [Head], e: &Expression) -> &'a [Head]
    ensures { result.now ≡ spec.for_first e.now variables.now }
{
    let others = for_others(variables, e).len();
    &variables[..variables.len() - others]
}

// The variables for the calls in a selector.
pub(crate) fn for_selector<'a>(variables: &'a [Head], selector: &Selector) -> &'a [Head]
    ensures { result.now ≡ spec_selectors.for_selector selector.now variables.now }
{
    match selector {
        Selector::Index(_, e) => for_first(variables, e),
        Selector::Field(_, _) => &[],
        Selector::Cell(_, _) => &[],
    }
}
