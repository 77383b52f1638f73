// Whether expressions make calls.

ghost use Rattle.std.specs.Prelude.{◌≡◌, ◌&&◌};
ghost use Rattle.spv_program.specs.Expressions.{Selectors};
ghost use Rattle.spv_program.specs.typed.ExpressionViews.{selector_before, selectors_of};
ghost use Rattle.spv_expression_terms.specs.term_walk.ExpressionTerms as spec;

use spv_program::typed::{Designator, Expression, ExpressionForm, Selector};

/// Whether an expression makes no call.
#[cycle(calls)]
pub fn has_no_calls(e: &Expression) -> bool
    ensures { result ≡ spec.has_no_calls e.now }
{
    match &e.form {
        ExpressionForm::Numeral(_) => true,
        ExpressionForm::Boolean(_) => true,
        ExpressionForm::Nil(_) => true,
        ExpressionForm::Read(d) => place_has_no_calls(d),
        ExpressionForm::Result(_) => false,
        ExpressionForm::Through(_) => false,
        ExpressionForm::Negative(a) => has_no_calls(a),
        ExpressionForm::Calculated(_, a, b) => has_no_calls(a) && has_no_calls(b),
        ExpressionForm::Compared(_, a, b) => has_no_calls(a) && has_no_calls(b),
        ExpressionForm::Negated(a) => has_no_calls(a),
        ExpressionForm::Joined(_, a, b) => has_no_calls(a) && has_no_calls(b),
    }
}

/// Whether the selectors of a designator make no call.
#[cycle(calls)]
pub fn place_has_no_calls(d: &Designator) -> bool
    ensures { result ≡ spec.place_has_no_calls d.now }
{
    selectors_have_no_calls(d.selectors.as_slice())
}

// Whether selectors make no call.
#[cycle(calls)]
fn selectors_have_no_calls(selectors: &[Selector]) -> bool
    ensures { result ≡ spec.selectors_have_no_calls (selectors_of selectors.now) }
{
    for selector in selectors {
        if !selector_has_no_calls(selector) {
            return false;
        }
    }
    true
}

// Whether a selector makes no call.
#[cycle(calls)]
fn selector_has_no_calls(selector: &Selector) -> bool
    ensures { (others : Selectors) → spec.selectors_have_no_calls (selector_before selector.now others) ≡ (result && spec.selectors_have_no_calls others) }
{
    match selector {
        Selector::Index(_, e) => has_no_calls(e),
        Selector::Field(_, _) => true,
        Selector::Cell(_, _) => true,
    }
}
