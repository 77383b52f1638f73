// Three-valued truth, computed once for each different subterm.

ghost use Rattle.std.specs.Prelude.{◌≡◌, ◌<◌, [], map, length, Bool, Option, IfOk};
ghost use Rattle.spv_logic.specs.Terms.{Term, term};
ghost use Rattle.spv_term.specs.Arena.{AllBelow, tree, trees, IsArena};
ghost use Rattle.spv_atoms.specs.Tables as spec;
ghost use Rattle.spv_atoms.specs.Atoms.{is_truth};
ghost use Rattle.spv_atoms.specs.declared.walk.Through.TheVariants.{Connectives};
ghost use Rattle.spv_atoms.specs.Order as order;
ghost use Rattle.spv_atoms.specs.Order.{enters_in};
ghost use Rattle.spv_atoms.specs.Valued.{pairs, KnownIn, truth_in, valued_in, value_at, AreGiven, AreValued, AllAmong, AreInside, IsInside, IsLayered, first_at, second_at};

use crate::numerals::relation;
use crate::sets::TermSet;
use crate::tables::{and_of, implied, not_of, or_of, same_of};
use crate::walk::{Through, all_formulas, all_in_order, connects};
use spv_term::{Head, TermId, Terms};
use std::alloc::{AllocError, Global};

// The value of an equation of these terms, of which the first two have the values x and y.
fn equation_value(terms: &Terms, args: &[TermId], x: Option<bool>, y: Option<bool>) -> Option<bool>
    requires { AllBelow (length terms.now.nodes) args.now }
    ensures { result
        ≡ spec.equation_value (spec.all_truths (is_truth terms.now.shapes terms.now.decls) (trees terms.now args.now)) x y (trees terms.now args.now) }
{
    if all_formulas(terms, args) {
        same_of(x, y)
    } else {
        relation(terms, Head::Eq, args)
    }
}

// The value of a head over these terms, of which the first two have the values x and y.
fn combined(
    terms: &Terms,
    head: Head,
    args: &[TermId],
    x: Option<bool>,
    y: Option<bool>,
) -> Option<bool>
    requires { AllBelow (length terms.now.nodes) args.now }
    ensures { result
        ≡ spec.combined (spec.all_truths (is_truth terms.now.shapes terms.now.decls) (trees terms.now args.now)) head x y (trees terms.now args.now) }
{
    match head {
        Head::Not => not_of(x),
        Head::And => and_of(x, y),
        Head::Or => or_of(x, y),
        Head::Implies => implied(x, y),
        Head::Eq => equation_value(terms, args, x, y),
        Head::Lt => relation(terms, Head::Lt, args),
        Head::Le => relation(terms, Head::Le, args),
        Head::True => Some(true),
        Head::False => Some(false),
        _ => None,
    }
}

// The value beside a term, where the first terms in order have their values.
fn value_of(order: &TermSet, found: &[Option<bool>], t: TermId) -> Option<bool>
    ensures { result ≡ value_at order.now found.now t }
{
    let Some(place) = order.place(t) else {
        return None;
    };
    if place < found.len() {
        found[place]
    } else {
        None
    }
}

// The value of the first of these terms.
fn first_value(order: &TermSet, found: &[Option<bool>], args: &[TermId]) -> Option<bool>
    ensures { result ≡ first_at order.now found.now args.now }
{
    match args {
        [t, ..] => value_of(order, found, *t),
        [] => None,
    }
}

// The value of the second of these terms.
fn second_value(order: &TermSet, found: &[Option<bool>], args: &[TermId]) -> Option<bool>
    ensures { result ≡ second_at order.now found.now args.now }
{
    match args {
        [_, others @ ..] => first_value(order, found, others),
        [] => None,
    }
}

// The value that is known of a term: of two the first.
fn given(terms: &Terms, known: &[(TermId, bool)], t: TermId) -> Option<bool>
    requires known { KnownIn terms.now known.now }
    requires t { t.0 < length terms.now.nodes }
    ensures { result ≡ spec.assigned (pairs terms.now known.now) (tree terms.now t) }
{
    terms.law_arena();
    for pair in known {
        if pair.0 == t {
            return Some(pair.1);
        }
    }
    None
}

/// The value of a head over terms that is computed from their values. Where it is a connective, they are
/// among the terms in order that have their values.
pub fn computed_over(
    terms: &Terms,
    order: &TermSet,
    found: &[Option<bool>],
    head: Head,
    args: &[TermId],
) -> Option<bool>
    requires args { AllBelow (length terms.now.nodes) args.now }
    requires inside { AreInside terms.now order.now found.now head args.now }
    ensures { (given : Term → Option Bool) → AreValued terms.now given order.now found.now
        → result ≡ spec.computed (is_truth terms.now.shapes terms.now.decls) given (term head (trees terms.now args.now)) }
{
    if !connects(terms, head, args) {
        return combined(terms, head, args, None, None);
    }
    let x = first_value(order, found, args);
    let y = second_value(order, found, args);
    combined(terms, head, args, x, y)
}

/// The value of a term that is computed from those of its arguments.
pub fn computed(terms: &Terms, order: &TermSet, found: &[Option<bool>], t: TermId) -> Option<bool>
    requires t { t.0 < length terms.now.nodes }
    requires inside { IsInside terms.now order.now found.now t }
    ensures { (given : Term → Option Bool) → AreValued terms.now given order.now found.now
        → result ≡ spec.computed (is_truth terms.now.shapes terms.now.decls) given (tree terms.now t) }
{
    terms.law_arena();
    let node = terms.node(t);
    computed_over(terms, order, found, node.head, node.args.as_slice())
}

// The value of a term: the given one, else the computed one.
fn value(
    terms: &Terms,
    own: Option<bool>,
    order: &TermSet,
    found: &[Option<bool>],
    t: TermId,
) -> Option<bool>
    requires t { t.0 < length terms.now.nodes }
    requires inside { IsInside terms.now order.now found.now t }
    ensures { (given : Term → Option Bool) → AreValued terms.now given order.now found.now
        → own ≡ given (tree terms.now t) → result ≡ valued_in terms.now given t }
{
    match own {
        Some(value) => Some(value),
        None => computed(terms, order, found, t),
    }
}

/// The values of terms in order, each behind its arguments, where `own` has what is given to each of
/// them: the given value, else the computed one.
pub fn values_in_order(
    alloc: Global,
    terms: &Terms,
    order: &TermSet,
    own: &[Option<bool>],
) -> Result<Vec<Option<bool>>, AllocError>
    requires order { AllBelow (length terms.now.nodes) order.now }
    requires layered { IsLayered terms.now order.now }
    requires own { length own.now ≡ length order.now }
    ensures length { IfOk result (λ found. length found.items ≡ length order.now) }
    ensures values { IfOk result (λ found. (given : Term → Option Bool) → AreGiven terms.now given order.now own.now
        → AreValued terms.now given order.now found.items) }
{
    terms.law_arena();
    let mut found = Vec::new(alloc);
    for t in order.as_slice() {
        let place = found.as_slice().len();
        let value = value(terms, own[place], order, found.as_slice(), *t);
        found.push(value)?;
    }
    Ok(found)
}

// What is known of each of these terms.
fn all_given(
    alloc: Global,
    terms: &Terms,
    known: &[(TermId, bool)],
    ids: &[TermId],
) -> Result<Vec<Option<bool>>, AllocError>
    requires known { KnownIn terms.now known.now }
    requires ids { AllBelow (length terms.now.nodes) ids.now }
    ensures { IfOk result (λ own. AreGiven terms.now (spec.assigned (pairs terms.now known.now)) ids.now own.items) }
{
    let mut own = Vec::new(alloc);
    for t in ids {
        own.push(given(terms, known, *t))?;
    }
    Ok(own)
}

/// Formulas and those that they are gone through to through connectives, each once and behind its
/// arguments.
pub fn connected(alloc: Global, terms: &Terms, roots: &[TermId]) -> Result<TermSet, AllocError>
    requires { AllBelow (length terms.now.nodes) roots.now }
    ensures order { IfOk result (λ done. map (tree terms.now) done
        ≡ order.order_all (enters_in terms.now Connectives) (trees terms.now roots.now) []) }
    ensures in_range { IfOk result (AllBelow (length terms.now.nodes)) }
    ensures layered { IfOk result (IsLayered terms.now) }
    ensures roots { IfOk result (λ done. AllAmong done roots.now) }
{
    terms.law_arena();
    let order = all_in_order(alloc, terms, Through::Connectives, roots)?;
    Ok(order)
}

/// The truth of a formula by the three-valued tables, where these values are known: its own if it is
/// among them (of two the first), else the computed one. `None` means that it is not known. Each
/// different subterm is visited once.
pub fn truth(
    alloc: Global,
    terms: &Terms,
    f: TermId,
    known: &[(TermId, bool)],
) -> Result<Option<bool>, AllocError>
    requires f { f.0 < length terms.now.nodes }
    requires known { KnownIn terms.now known.now }
    ensures { IfOk result (λ value. value ≡ truth_in terms.now known.now f) }
{
    let order = connected(alloc, terms, &[f])?;
    let own = all_given(alloc, terms, known, order.as_slice())?;
    let found = values_in_order(alloc, terms, &order, own.as_slice())?;
    Ok(value_of(&order, found.as_slice(), f))
}
