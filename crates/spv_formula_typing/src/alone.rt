// Formulas that are a number, a designator or a name alone.

ghost use Rattle.std.specs.Prelude.{◌≡◌, IfNone, IfSome, None, Some, option_copied};
ghost use Rattle.spv_typing.specs.OperatorWalk as spec;
ghost use Rattle.spv_formula_typing.specs.Operands.{numeral_alone, numeral_of};

use spv_tree::syntax::{
    Designator, Factor, FactorForm, Formula, FormulaForm, Name, Relation, Simple, Term,
};

// The number that a term is, where it is a numeral alone.
pub(crate) fn number_alone(tree: &Term) -> Option<i64>
    ensures number { IfSome result (λ z. numeral_alone tree.now ≡ Some z) }
    ensures none { IfNone result (numeral_alone tree.now ≡ None) }
{
    match tree.more.as_slice() {
        [] => number_of(&tree.first),
        _ => None,
    }
}

fn number_of(tree: &Factor) -> Option<i64>
    ensures number { IfSome result (λ z. numeral_of tree.now ≡ Some z) }
    ensures none { IfNone result (numeral_of tree.now ≡ None) }
{
    match &tree.form {
        FactorForm::Number(_, n) => Some(n.value()),
        _ => None,
    }
}

// The designator that a formula is, where it is one alone.
pub(crate) fn designator_alone(tree: &Formula) -> Option<&Designator>
    ensures { option_copied result ≡ spec.designator_alone tree.now }
{
    match &tree.form {
        FormulaForm::Factor(alone) => factor_alone(alone),
        FormulaForm::Implication(whole) => match &whole.right {
            None => relation_alone(&whole.left),
            Some(_) => None,
        },
    }
}

fn relation_alone(tree: &Relation) -> Option<&Designator>
    ensures { option_copied result ≡ spec.relation_alone tree.now }
{
    match &tree.right {
        None => simple_alone(&tree.left),
        Some(_) => None,
    }
}

fn simple_alone(tree: &Simple) -> Option<&Designator>
    ensures { option_copied result ≡ spec.simple_alone tree.now }
{
    match tree.prefix {
        Some(_) => None,
        None => match tree.more.as_slice() {
            [] => term_alone(&tree.first),
            _ => None,
        },
    }
}

fn term_alone(tree: &Term) -> Option<&Designator>
    ensures { option_copied result ≡ spec.term_alone tree.now }
{
    match tree.more.as_slice() {
        [] => factor_alone(&tree.first),
        _ => None,
    }
}

fn factor_alone(tree: &Factor) -> Option<&Designator>
    ensures { option_copied result ≡ spec.factor_alone tree.now }
{
    match &tree.form {
        FactorForm::Place(place) => Some(place),
        _ => None,
    }
}

// The name that a formula is, where it is a name alone.
pub(crate) fn name_alone(tree: &Formula) -> Option<Name>
    ensures { result ≡ spec.bare (spec.designator_alone tree.now) }
{
    match designator_alone(tree) {
        Some(place) => bare(place),
        None => None,
    }
}

// The name that a designator is, where it has no selectors.
fn bare(tree: &Designator) -> Option<Name>
    ensures { result ≡ spec.bare (Some tree.now) }
{
    match tree.behind.as_slice() {
        [] => Some(tree.name),
        _ => None,
    }
}
