// Questions that are equations of the sides of an order.

ghost use Rattle.std.specs.Prelude.{◌≡◌, ◌<◌, length, map, OnOk, IfOk};
ghost use Rattle.spv_term.specs.Arena.{AllBelow};
ghost use Rattle.spv_trail.specs.followers.Followers.{pair, order_of, Puts, PutsAt, Adds, AreBeside, AreOrders, HaveLists, IsQuestion, IsEquation};

use crate::followers::lists::empty_lists;
use crate::followers::orders::{Orders, find_orders};
use spv_derivations::derivation::Part;
use spv_proof_steps::candidates::sides;
use spv_term::{TermId, Terms};
use std::alloc::{AllocError, Global};

// Puts a question behind those beside a term.
fn put(
    lists: &mut [Vec<(TermId, Part)>],
    t: TermId,
    question: TermId,
    part: Part,
) -> Result<(), AllocError>
    requires { t.0 < length lists.old }
    ensures { OnOk result (Puts t question part (map (λ v. v.items) lists.old) (map (λ v. v.items) lists.new)) }
{
    lists[t.0 as usize].push((question, part))?;
    Ok(())
}

// Puts a question beside the order of two terms, if there is one.
fn put_at(
    orders: &Orders,
    lists: &mut [Vec<(TermId, Part)>],
    left: TermId,
    right: TermId,
    question: TermId,
    part: Part,
) -> Result<(), AllocError>
    requires { HaveLists orders.now (length lists.old) }
    ensures puts { OnOk result (PutsAt (order_of orders.now (pair left right)) question part (map (λ v. v.items) lists.old) (map (λ v. v.items) lists.new)) }
    ensures many { length lists.new ≡ length lists.old }
{
    match orders.get(left, right) {
        Some(t) => put(lists, t, question, part),
        None => Ok(()),
    }
}

// Puts a question beside the orders of its sides, if it is an equation.
fn add_equation(
    terms: &Terms,
    orders: &Orders,
    lists: &mut [Vec<(TermId, Part)>],
    question: TermId,
) -> Result<(), AllocError>
    requires question { question.0 < length terms.now.nodes }
    requires orders { AreOrders terms.now (length terms.now.nodes) orders.now }
    requires lists { length lists.old ≡ length terms.now.nodes }
    ensures { OnOk result (Adds terms.now (IsEquation terms.now) question (map (λ v. v.items) lists.old) (map (λ v. v.items) lists.new)) }
{
    match sides(terms, question) {
        Some((left, right)) => {
            put_at(orders, lists, left, right, question, Part::Below)?;
            put_at(orders, lists, right, left, question, Part::Above)?;
            Ok(())
        }
        None => Ok(()),
    }
}

/// Beside each order the questions that are equations of its sides.
pub(crate) fn find_equations(
    alloc: Global,
    terms: &Terms,
    questions: &[TermId],
) -> Result<Vec<Vec<(TermId, Part)>>, AllocError>
    requires { AllBelow (length terms.now.nodes) questions.now }
    ensures { IfOk result (λ lists. AreBeside terms.now (IsQuestion questions.now) (IsEquation terms.now) (map (λ v. v.items) lists.items)) }
{
    let orders = find_orders(alloc, terms)?;
    let mut lists = empty_lists(alloc, terms.len() as usize)?;
    for place in 0..questions.len() {
        add_equation(terms, &orders, &mut lists, questions[place])?;
    }
    Ok(lists)
}
