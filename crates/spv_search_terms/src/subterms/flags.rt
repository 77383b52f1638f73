// Which subterms a table lists.

ghost use Rattle.std.specs.Prelude.{◌≡◌, ◌<◌, false, map, length, IfOk};
ghost use Rattle.spv_term.specs.Arena.{AllBelow, tree};
ghost use Rattle.spv_models.specs.leaf_models.Subterms.{is_listed};
ghost use Rattle.spv_search_terms.specs.subterms.Walk.{AreBehind};
ghost use Rattle.spv_search_terms.specs.subterms.Flags as spec;
ghost use Rattle.spv_search_terms.specs.subterms.Flags.{is_constant, beside};

use crate::subterms::ids::IdSet;
use spv_atoms::has_meaning_head;
use spv_term::{Head, TermId, Terms};
use std::alloc::{AllocError, Global};

// The flag beside a term; none is false.
fn flag(order: &IdSet, flags: &[bool], t: TermId) -> bool
    ensures { result ≡ beside false order.now flags.now t }
{
    match order.place(t) {
        Some(place) => flags.get(place).copied().unwrap_or(false),
        None => false,
    }
}

// Whether there are two terms, both with a flag.
fn both(order: &IdSet, flags: &[bool], args: &[TermId]) -> bool
    ensures { result ≡ spec.both (map (beside false order.now flags.now) args.now) }
{
    match args {
        [s, t] => flag(order, flags, *s) && flag(order, flags, *t),
        _ => false,
    }
}

// Whether there are two terms, one of them with a flag.
fn one(order: &IdSet, flags: &[bool], args: &[TermId]) -> bool
    ensures { result ≡ spec.one (map (beside false order.now flags.now) args.now) }
{
    match args {
        [s, t] => flag(order, flags, *s) || flag(order, flags, *t),
        _ => false,
    }
}

// Whether a head over terms with these flags is constant.
fn constant(order: &IdSet, flags: &[bool], head: Head, args: &[TermId]) -> bool
    ensures { result ≡ spec.constant head (map (beside false order.now flags.now) args.now) }
{
    match head {
        Head::Num(_) => true,
        Head::Add | Head::Sub | Head::Mul => both(order, flags, args),
        _ => false,
    }
}

// Whether a head over terms, which are constant where they have a flag, has a meaning of its own.
fn means(order: &IdSet, flags: &[bool], head: Head, args: &[TermId]) -> bool
    ensures { result ≡ spec.means head (map (beside false order.now flags.now) args.now) }
{
    match head {
        Head::Num(_) | Head::True | Head::False => true,
        Head::Mul => one(order, flags, args),
        _ => has_meaning_head(head),
    }
}

// Which of these terms are constant, where before each its arguments stand.
fn constants(alloc: Global, terms: &Terms, order: &IdSet) -> Result<Vec<bool>, AllocError>
    requires in_range { AllBelow (length terms.now.nodes) order.now }
    requires behind { AreBehind terms.now order.now }
    ensures { IfOk result (λ flags. flags.items ≡ map (λ t. is_constant (tree terms.now t)) order.now) }
{
    terms.law_arena();
    let mut flags = Vec::new(alloc);
    for t in order.as_slice() {
        let node = terms.node(*t);
        let flag = constant(order, flags.as_slice(), node.head, node.args.as_slice());
        flags.push(flag)?;
    }
    Ok(flags)
}

/// Which of these terms a table lists, where before each its arguments stand.
pub fn listed(alloc: Global, terms: &Terms, order: &IdSet) -> Result<Vec<bool>, AllocError>
    requires in_range { AllBelow (length terms.now.nodes) order.now }
    requires behind { AreBehind terms.now order.now }
    ensures { IfOk result (λ flags. flags.items ≡ map (λ t. is_listed (tree terms.now t)) order.now) }
{
    terms.law_arena();
    let constants = constants(alloc, terms, order)?;
    let mut flags = Vec::new(alloc);
    for t in order.as_slice() {
        let node = terms.node(*t);
        let flag = !means(order, constants.as_slice(), node.head, node.args.as_slice());
        flags.push(flag)?;
    }
    Ok(flags)
}
