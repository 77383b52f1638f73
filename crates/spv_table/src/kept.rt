// What is kept of a term while those above it are evaluated.

ghost use Rattle.std.specs.Prelude.{◌≡◌, ◌<◌, ◌&&◌, length, true, IfOk};
ghost use Rattle.spv_whole.specs.Fraction.{whole};
ghost use Rattle.spv_logic.specs.Sorts.{numeral_fits};
ghost use Rattle.spv_term.specs.Arena.{AllBelow, IsArena, tree};
ghost use Rattle.spv_frac.specs.Range.{fits};
ghost use Rattle.spv_atoms.specs.Order as order;
ghost use Rattle.spv_atoms.specs.Found.{IsReady};
ghost use Rattle.spv_table.specs.Values as spec;
ghost use Rattle.spv_table.specs.Kept.{pair_over, single_over, alone_constant, alone_value, listed_over, PairsIn, IsKept, AreKept, IsBeside, HasReadyArguments, AreBehindArguments};

use crate::operations::{WideValue, has_meaning, is_true, of_pair, truth_value};
use spv_atoms::{TermSet, Through, has_meaning_head, in_order, is_sum_head};
use spv_frac::Frac;
use spv_term::{Head, TermId, Terms};
use std::alloc::{AllocError, Global};

/// What is kept of a term: whether it is constant, and its value.
#[derive(Debug, Drop)]
pub(crate) struct Kept {
    pub(crate) is_constant: bool,
    pub(crate) value: Result<Frac, WideValue>,
}

// The fraction that is listed with a term: of two the first; 0 where none is.
fn listed(terms: &Terms, values: &[(TermId, Frac)], t: TermId) -> Frac
    requires values { PairsIn terms.now values.now }
    requires t { t.0 < length terms.now.nodes }
    ensures { result ≡ listed_over terms.now values.now (tree terms.now t) }
{
    terms.law_arena();
    for pair in values {
        if pair.0 == t {
            return pair.1;
        }
    }
    Frac::whole(0)
}

// The value of a negation.
fn negated(kept: &Kept) -> Result<Frac, WideValue>
    ensures { result ≡ spec.negation kept.now.value }
{
    match kept.value {
        Ok(value) => Ok(truth_value(!is_true(value))),
        Err(wide) => Err(wide),
    }
}

// The value of a head over two terms, whose application is listed with `own`.
fn pair_value(head: Head, left: &Kept, right: &Kept, own: Frac) -> Result<Frac, WideValue>
    ensures { result ≡ pair_over head left.now right.now own }
{
    if !has_meaning(head, left.is_constant, right.is_constant) {
        return Ok(own);
    }
    match left.value {
        Ok(x) => match right.value {
            Ok(y) => of_pair(head, x, y),
            Err(wide) => Err(wide),
        },
        Err(first) => Err(first),
    }
}

// Whether a head over two terms is constant.
fn pair_is_constant(head: Head, left: &Kept, right: &Kept) -> bool
    ensures { result ≡ (order.is_sum_head head && (left.now.is_constant && right.now.is_constant)) }
{
    is_sum_head(head) && (left.is_constant && right.is_constant)
}

// What is kept of a term that is among the first ones.
fn kept_of<'a>(order: &TermSet, kept: &'a [Kept], t: TermId) -> &'a Kept
    requires { IsReady order.now (length kept.now) t }
    ensures { IsBeside order.now kept.now t result.now }
{
    let place = order.place(t).unwrap();
    kept.get(place).unwrap()
}

// A numeral as a fraction.
fn numeral(number: i128) -> Frac
    requires { fits number ≡ true }
    ensures { result ≡ whole number }
{
    Frac {
        num: number,
        den: 1,
    }
}

// What is kept of a term whose head takes no values, and which is listed with `own`.
fn kept_alone(head: Head, own: Frac) -> Kept
    requires { numeral_fits head ≡ true }
    ensures constant { result.is_constant ≡ alone_constant head }
    ensures value { result.value ≡ alone_value head own }
{
    match head {
        Head::Num(number) => Kept {
            is_constant: true,
            value: Ok(numeral(number)),
        },
        Head::True => Kept {
            is_constant: false,
            value: Ok(truth_value(true)),
        },
        Head::False => Kept {
            is_constant: false,
            value: Ok(truth_value(false)),
        },
        _ => Kept {
            is_constant: false,
            value: Ok(own),
        },
    }
}

// The value of a head over one term, whose application is listed with `own`.
fn single_value(head: Head, kept: &Kept, own: Frac) -> Result<Frac, WideValue>
    ensures { result ≡ single_over head kept.now own }
{
    match head {
        Head::Not => negated(kept),
        _ => Ok(own),
    }
}

// What is kept of a term, from what is kept of its arguments.
fn kept_at(
    terms: &Terms,
    values: &[(TermId, Frac)],
    order: &TermSet,
    kept: &[Kept],
    t: TermId,
) -> Kept
    requires t { t.0 < length terms.now.nodes }
    requires values { PairsIn terms.now values.now }
    requires kept { AreKept terms.now (listed_over terms.now values.now) order.now kept.now }
    requires arguments { HasReadyArguments terms.now order.now (length kept.now) t }
    ensures { IsKept (listed_over terms.now values.now) (tree terms.now t) result }
{
    terms.law_arena();
    let node = terms.node(t);
    let own = listed(terms, values, t);
    if !has_meaning_head(node.head) {
        return kept_alone(node.head, own);
    }
    let args = node.args.as_slice();
    if args.len() == 1 {
        return Kept {
            is_constant: false,
            value: single_value(node.head, kept_of(order, kept, args[0]), own),
        };
    }
    if args.len() == 2 {
        let left = kept_of(order, kept, args[0]);
        let right = kept_of(order, kept, args[1]);
        return Kept {
            is_constant: pair_is_constant(node.head, left, right),
            value: pair_value(node.head, left, right, own),
        };
    }
    Kept {
        is_constant: false,
        value: Ok(own),
    }
}

/// What is kept of terms in order, each behind its arguments.
pub(crate) fn all_kept(
    alloc: Global,
    terms: &Terms,
    values: &[(TermId, Frac)],
    order: &TermSet,
) -> Result<Vec<Kept>, AllocError>
    requires values { PairsIn terms.now values.now }
    requires order { AllBelow (length terms.now.nodes) order.now }
    requires behind { AreBehindArguments terms.now order.now }
    ensures length { IfOk result (λ kept. length kept.items ≡ length order.now) }
    ensures kept { IfOk result
        (λ kept. AreKept terms.now (listed_over terms.now values.now) order.now kept.items) }
{
    terms.law_arena();
    let mut kept = Vec::new(alloc);
    for t in order.as_slice() {
        let one = kept_at(terms, values, order, kept.as_slice(), *t);
        kept.push(one)?;
    }
    Ok(kept)
}

/// The value of a term, where these values are listed.
pub(crate) fn value_of(
    alloc: Global,
    terms: &Terms,
    values: &[(TermId, Frac)],
    t: TermId,
) -> Result<Result<Frac, WideValue>, AllocError>
    requires values { PairsIn terms.now values.now }
    requires t { t.0 < length terms.now.nodes }
    ensures { IfOk result
        (λ answer. answer ≡ spec.value (listed_over terms.now values.now) (tree terms.now t)) }
{
    terms.law_arena();
    let order = in_order(alloc, terms, Through::Meanings, t)?;
    let kept = all_kept(alloc, terms, values, &order)?;
    Ok(kept_of(&order, kept.as_slice(), t).value)
}
