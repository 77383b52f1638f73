// Going through terms without recursion.

ghost use Rattle.std.specs.Prelude.{◌≡◌, ◌<◌, ◌≤◌, ◌+◌, ◌++◌, [], ◌∷◌, map, length, OnOk, IfOk};
ghost use Rattle.spv_term.specs.Arena.{AllBelow, tree, trees, IsArena};
ghost use Rattle.spv_atoms.specs.Order as order;
ghost use Rattle.spv_atoms.specs.Order.{enters_in, visits, WorkIn, WorksIn, Inside, IsStep};
ghost use Rattle.spv_atoms.specs.Atoms as spec;
ghost use Rattle.spv_atoms.specs.Atoms.{is_truth};
ghost use Rattle.spv_atoms.specs.Tables.{all_truths};

use crate::sets::TermSet;
use spv_term::{Head, Sort, TermId, Terms};
use std::alloc::{AllocError, Global};

/// Which terms' arguments are gone through.
#[derive(Clone, Copy, Debug)]
pub enum Through {
    /// Those of connectives.
    Connectives,
    /// Those of sums, differences and products.
    Sums,
    /// Those of sums, differences, products, relations and connectives.
    Meanings,
}

/// What is still to be done.
#[derive(Clone, Copy, Debug)]
pub(crate) enum Work {
    /// A term and those that it is gone through to are to be added.
    Visit(TermId),
    /// A term is to be added, whose arguments are.
    Finish(TermId),
}

// Whether a term is of sort Bool.
pub(crate) fn is_formula(terms: &Terms, t: TermId) -> bool
    requires { t.0 < length terms.now.nodes }
    ensures { result ≡ is_truth terms.now.shapes terms.now.decls (tree terms.now t) }
{
    terms.law_arena();
    match terms.sort(t) {
        Sort::Bool => true,
        _ => false,
    }
}

// Whether terms are all of sort Bool.
pub(crate) fn all_formulas(terms: &Terms, args: &[TermId]) -> bool
    requires { AllBelow (length terms.now.nodes) args.now }
    ensures { result ≡ all_truths (is_truth terms.now.shapes terms.now.decls) (trees terms.now args.now) }
{
    for t in args {
        if !is_formula(terms, *t) {
            return false;
        }
    }
    true
}

// Whether a head over these terms is a connective.
pub(crate) fn connects(terms: &Terms, head: Head, args: &[TermId]) -> bool
    requires { AllBelow (length terms.now.nodes) args.now }
    ensures { result
        ≡ spec.connects (all_truths (is_truth terms.now.shapes terms.now.decls) (trees terms.now args.now)) head }
{
    match head {
        Head::Not | Head::And | Head::Or | Head::Implies => true,
        Head::Eq => all_formulas(terms, args),
        _ => false,
    }
}

// Whether a term is a connective over its arguments.
pub(crate) fn is_connective(terms: &Terms, t: TermId) -> bool
    requires { t.0 < length terms.now.nodes }
    ensures { result ≡ spec.is_connective (is_truth terms.now.shapes terms.now.decls) (tree terms.now t) }
{
    terms.law_arena();
    let node = terms.node(t);
    connects(terms, node.head, node.args.as_slice())
}

/// Whether a head is a sum, a difference or a product.
pub fn is_sum_head(head: Head) -> bool
    ensures { result ≡ order.is_sum_head head }
{
    match head {
        Head::Add | Head::Sub | Head::Mul => true,
        _ => false,
    }
}

// Whether a term is a sum, a difference or a product.
fn is_sum(terms: &Terms, t: TermId) -> bool
    requires { t.0 < length terms.now.nodes }
    ensures { result ≡ order.is_sum (tree terms.now t) }
{
    terms.law_arena();
    is_sum_head(terms.node(t).head)
}

/// Whether a head is a sum, a difference, a product, a relation or a connective.
pub fn has_meaning_head(head: Head) -> bool
    ensures { result ≡ order.has_meaning_head head }
{
    match head {
        Head::Add | Head::Sub | Head::Mul => true,
        Head::Eq | Head::Lt | Head::Le => true,
        Head::Not | Head::And | Head::Or | Head::Implies => true,
        _ => false,
    }
}

// Whether a term is a sum, a difference, a product, a relation or a connective.
fn has_meaning(terms: &Terms, t: TermId) -> bool
    requires { t.0 < length terms.now.nodes }
    ensures { result ≡ order.has_meaning (tree terms.now t) }
{
    terms.law_arena();
    has_meaning_head(terms.node(t).head)
}

// Whether the arguments of a term are gone through.
pub(crate) fn enters(terms: &Terms, through: Through, t: TermId) -> bool
    requires { t.0 < length terms.now.nodes }
    ensures { result ≡ enters_in terms.now through (tree terms.now t) }
{
    match through {
        Through::Connectives => is_connective(terms, t),
        Through::Sums => is_sum(terms, t),
        Through::Meanings => has_meaning(terms, t),
    }
}

// Puts visits of terms in front of all other works, the first of them first.
fn push_visits(works: &mut Vec<Work>, args: &[TermId]) -> Result<(), AllocError>
    ensures { OnOk result (works.new.items ≡ works.old.items ++ visits args.now) }
{
    let mut left = args.len();
    while left > 0 {
        left -= 1;
        works.push(Work::Visit(args[left]))?;
    }
    Ok(())
}

// Puts a term and visits of its arguments in front of all other works.
fn push_inside(terms: &Terms, t: TermId, works: &mut Vec<Work>) -> Result<(), AllocError>
    requires { t.0 < length terms.now.nodes }
    ensures { OnOk result (Inside terms.now t works.old.items works.new.items) }
{
    works.push(Work::Finish(t))?;
    push_visits(works, terms.node(t).args.as_slice())
}

// Goes to a term: adds it where it has no arguments that are gone through.
fn visit(
    terms: &Terms,
    through: Through,
    t: TermId,
    works: &mut Vec<Work>,
    done: &mut TermSet,
) -> Result<(), AllocError>
    requires t { t.0 < length terms.now.nodes }
    requires works { WorksIn terms.now works.old.items }
    requires done { AllBelow (length terms.now.nodes) done.old }
    ensures { OnOk result
        (IsStep terms.now through (Work.Visit t) works.old.items done.old works.new.items done.new) }
{
    terms.law_arena();
    if done.has(t) {
        return Ok(());
    }
    if enters(terms, through, t) {
        push_inside(terms, t, works)
    } else {
        done.add(t)
    }
}

// Does one work.
fn step(
    terms: &Terms,
    through: Through,
    work: Work,
    works: &mut Vec<Work>,
    done: &mut TermSet,
) -> Result<(), AllocError>
    requires work { WorkIn terms.now work }
    requires works { WorksIn terms.now works.old.items }
    requires done { AllBelow (length terms.now.nodes) done.old }
    ensures { OnOk result (IsStep terms.now through work works.old.items done.old works.new.items done.new) }
{
    terms.law_arena();
    match work {
        Work::Visit(t) => visit(terms, through, t, works, done),
        Work::Finish(t) => done.add(t),
    }
}

/// Terms and those that they are gone through to, each once and behind its arguments.
pub fn all_in_order(
    alloc: Global,
    terms: &Terms,
    through: Through,
    roots: &[TermId],
) -> Result<TermSet, AllocError>
    requires { AllBelow (length terms.now.nodes) roots.now }
    ensures order { IfOk result (λ done. map (tree terms.now) done
        ≡ order.order_all (enters_in terms.now through) (trees terms.now roots.now) []) }
    ensures in_range { IfOk result (AllBelow (length terms.now.nodes)) }
{
    terms.law_arena();
    let mut done = TermSet::new(alloc);
    let mut works = Vec::new(alloc);
    push_visits(&mut works, roots)?;
    while let Some(work) = works.pop() {
        step(terms, through, work, &mut works, &mut done)?;
    }
    Ok(done)
}

/// A term and those that it is gone through to, each once and behind its arguments.
pub fn in_order(
    alloc: Global,
    terms: &Terms,
    through: Through,
    t: TermId,
) -> Result<TermSet, AllocError>
    requires { t.0 < length terms.now.nodes }
    ensures order { IfOk result
        (λ done. map (tree terms.now) done ≡ order.order (enters_in terms.now through) (tree terms.now t) []) }
    ensures in_range { IfOk result (AllBelow (length terms.now.nodes)) }
{
    all_in_order(alloc, terms, through, &[t])
}
