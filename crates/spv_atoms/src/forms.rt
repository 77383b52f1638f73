//! The linear forms of terms.

ghost use Rattle.std.specs.Prelude.{◌≡◌, ◌<◌, length, true, IfOk, IfErr};
ghost use Rattle.spv_logic.specs.declared.conditions.TermId.{TermId};
ghost use Rattle.spv_term.specs.Arena.{AllBelow, IsArena, tree};
ghost use Rattle.spv_atoms.specs.Forms.{form};
ghost use Rattle.spv_atoms.specs.Order.{is_sum_head};
ghost use Rattle.spv_atoms.specs.Linear.{coefficient, coefficient_at, IsFormOf};
ghost use Rattle.spv_atoms.specs.Found as spec;
ghost use Rattle.spv_atoms.specs.Found.{IsFormed, IsFound, AreFound, IsReady, IsCombined, IsOwn, IsAlone, IsPairForm, IsPairFound, IsBeside, HasReadyArguments, AreBehindArguments, IsFaultOf, ComesWhereWide};

use crate::linear_form::Linear;
use crate::sets::TermSet;
use crate::walk::{Through, in_order, is_sum_head};
use spv_term::{Head, TermId, Terms};
use std::alloc::{AllocError, Global};
use thiserror::Error;

/// Why a term has no linear form here.
#[derive(Clone, Copy, PartialEq, Eq, Debug, Error)]
pub enum AtomFault {
    /// The exact form of this term, which stands in a linear position, has a number that does not fit.
    #[error("a linear form is too wide")]
    WideForm(TermId),
    /// There is no memory for the form.
    #[error("out of memory")]
    Memory,
}

impl From<AllocError> for AtomFault {
    ghost use Rattle.std.specs.Prelude.{◌≡◌};
    ghost use Rattle.spv_atoms.specs.declared.forms.AtomFault.TheVariants.{Memory};

    ghost from_gives = { λ _ fault. fault ≡ Memory };

    fn from(_: AllocError) -> AtomFault {
        AtomFault::Memory
    }
}

/// The form of a term, or the first term in a linear position of it whose form does not fit.
#[derive(Debug, Drop)]
pub(crate) enum Formed {
    /// Its form.
    Narrow(Linear),
    /// The term whose form does not fit.
    Wide(TermId),
}

/// What is found of a term: whether it is constant, and its form.
#[derive(Debug, Drop)]
pub(crate) struct Found {
    is_constant: bool,
    form: Formed,
}

// Whether a head over two terms, which are constant or not, is linear.
fn is_linear(head: Head, left_is_constant: bool, right_is_constant: bool) -> bool
    ensures { result ≡ spec.is_linear_over head left_is_constant right_is_constant }
{
    match head {
        Head::Add | Head::Sub => true,
        Head::Mul => left_is_constant || right_is_constant,
        _ => false,
    }
}

// The form of a linear head over two terms with these forms; `None` where it does not fit.
fn combined(
    alloc: Global,
    head: Head,
    left_is_constant: bool,
    left: &Linear,
    right: &Linear,
) -> Result<Option<Linear>, AllocError>
    ensures { IfOk result (λ form. IsCombined head left_is_constant left.now right.now form) }
{
    match head {
        Head::Add => left.plus(alloc, right),
        Head::Sub => left.minus(alloc, right),
        _ => {
            if left_is_constant {
                right.times(alloc, left.constant())
            } else {
                left.times(alloc, right.constant())
            }
        }
    }
}

// The form of a term that is its own part.
fn own(alloc: Global, t: TermId) -> Result<Formed, AllocError>
    ensures { IfOk result (λ formed. IsOwn t formed) }
{
    Ok(Formed::Narrow(Linear::term(alloc, t)?))
}

// The form of a sum, a difference or a product, from what is found of its two sides. Of two terms whose
// forms do not fit it names the one in the left side.
fn pair_form(
    alloc: Global,
    head: Head,
    t: TermId,
    left: &Found,
    right: &Found,
) -> Result<Formed, AllocError>
    requires { is_sum_head head ≡ true }
    ensures { IfOk result (λ formed. IsPairForm head t left.now right.now formed) }
{
    if !is_linear(head, left.is_constant, right.is_constant) {
        return own(alloc, t);
    }
    let left_form = match &left.form {
        Formed::Narrow(form) => form,
        Formed::Wide(u) => return Ok(Formed::Wide(*u)),
    };
    let right_form = match &right.form {
        Formed::Narrow(form) => form,
        Formed::Wide(u) => return Ok(Formed::Wide(*u)),
    };
    match combined(alloc, head, left.is_constant, left_form, right_form)? {
        Some(form) => {
            form.law_linear();
            Ok(Formed::Narrow(form))
        }
        None => Ok(Formed::Wide(t)),
    }
}

// What is found of a sum, a difference or a product, from what is found of its two sides.
fn pair_found(
    alloc: Global,
    head: Head,
    t: TermId,
    left: &Found,
    right: &Found,
) -> Result<Found, AllocError>
    requires { is_sum_head head ≡ true }
    ensures { IfOk result (λ found. IsPairFound head t left.now right.now found) }
{
    Ok(Found {
        is_constant: left.is_constant && right.is_constant,
        form: pair_form(alloc, head, t, left, right)?,
    })
}

// What is found of a term that is its own part.
fn found_alone(alloc: Global, t: TermId) -> Result<Found, AllocError>
    ensures { IfOk result (λ found. IsAlone t found) }
{
    Ok(Found {
        is_constant: false,
        form: own(alloc, t)?,
    })
}

// What is found of a term that is among the first ones.
fn found_of<'a>(order: &TermSet, known: &'a [Found], t: TermId) -> &'a Found
    requires { IsReady order.now (length known.now) t }
    ensures { IsBeside order.now known.now t result.now }
{
    let place = order.place(t).unwrap();
    known.get(place).unwrap()
}

// What is found of a term, from what is found of its arguments.
fn found_at(
    alloc: Global,
    terms: &Terms,
    order: &TermSet,
    known: &[Found],
    t: TermId,
) -> Result<Found, AllocError>
    requires t { t.0 < length terms.now.nodes }
    requires known { AreFound terms.now order.now known.now }
    requires arguments { HasReadyArguments terms.now order.now (length known.now) t }
    ensures { IfOk result (λ found. IsFound terms.now (tree terms.now t) found) }
{
    terms.law_arena();
    let node = terms.node(t);
    if let Head::Num(value) = node.head {
        return Ok(Found {
            is_constant: true,
            form: Formed::Narrow(Linear::number(alloc, value)),
        });
    }
    if !is_sum_head(node.head) {
        return found_alone(alloc, t);
    }
    let args = node.args.as_slice();
    if args.len() != 2 {
        return found_alone(alloc, t);
    }
    let left = found_of(order, known, args[0]);
    let right = found_of(order, known, args[1]);
    pair_found(alloc, node.head, t, left, right)
}

// What is found of terms in order, each behind its arguments.
fn all_found(alloc: Global, terms: &Terms, order: &TermSet) -> Result<Vec<Found>, AllocError>
    requires order { AllBelow (length terms.now.nodes) order.now }
    requires behind { AreBehindArguments terms.now order.now }
    ensures length { IfOk result (λ known. length known.items ≡ length order.now) }
    ensures found { IfOk result (λ known. AreFound terms.now order.now known.items) }
{
    terms.law_arena();
    let mut known = Vec::new(alloc);
    for t in order.as_slice() {
        let found = found_at(alloc, terms, order, known.as_slice(), *t)?;
        known.push(found)?;
    }
    Ok(known)
}

// The form of a term, or the first term in a linear position of it whose form does not fit.
fn form_of(alloc: Global, terms: &Terms, t: TermId) -> Result<Formed, AllocError>
    requires { t.0 < length terms.now.nodes }
    ensures { IfOk result (λ formed. IsFormed terms.now (tree terms.now t) formed) }
{
    terms.law_arena();
    let order = in_order(alloc, terms, Through::Sums, t)?;
    let mut known = all_found(alloc, terms, &order)?;
    let place = order.place(t).unwrap();
    Ok(known.swap_remove(place).form)
}

/// The exact linear form of a term, where each of its numbers fits and so do those of each form in a
/// linear position: of the term itself, of both sides of a sum or a difference in such a position, and of
/// both sides of a product in such a position of which one side is constant. Each different subterm is
/// visited once.
///
/// `WideForm` comes exactly where one of these forms has a coefficient or a constant that does not fit.
/// It names the first such term, where arguments come before their term and from left to right.
pub fn linear(alloc: Global, terms: &Terms, t: TermId) -> Result<Linear, AtomFault>
    requires { t.0 < length terms.now.nodes }
    ensures form { IfOk result (λ l. IsFormOf terms.now (tree terms.now t) l) }
    ensures coefficients { IfOk result (λ l. (u : TermId) → u.0 < length terms.now.nodes
        → coefficient_at l.parts u ≡ coefficient (form (tree terms.now t)).parts (tree terms.now u)) }
    ensures wide { IfErr result (λ fault. IsFaultOf terms.now (tree terms.now t) fault) }
    ensures exact { IfErr result (λ fault. ComesWhereWide (tree terms.now t) fault) }
{
    terms.law_arena();
    match form_of(alloc, terms, t)? {
        Formed::Narrow(form) => Ok(form),
        Formed::Wide(u) => Err(AtomFault::WideForm(u)),
    }
}
