// Going through terms without recursion.

ghost use Rattle.std.specs.Prelude.{◌≡◌, ◌<◌, ◌++◌, [], map, length, OnOk, IfOk};
ghost use Rattle.spv_term.specs.Arena.{AllBelow, tree, trees};
ghost use Rattle.spv_atoms.specs.Order as order;
ghost use Rattle.spv_atoms.specs.Found.{AreReady};
ghost use Rattle.spv_models.specs.leaf_models.Subterms as spec;
ghost use Rattle.spv_search_terms.specs.subterms.Walk.{visits, WorkIn, WorksIn, Inside, IsStep, AreBehind};

use crate::subterms::ids::IdSet;
use spv_term::{TermId, Terms};
use std::alloc::{AllocError, Global};

/// What is still to be done.
#[derive(Clone, Copy, Debug)]
pub(crate) enum Work {
    /// A term and its subterms are to be added.
    Visit(TermId),
    /// A term is to be added, whose arguments are.
    Finish(TermId),
}

// Puts visits of terms in front of all other works, the first of them first.
fn push_visits(works: &mut Vec<Work>, args: &[TermId]) -> Result<(), AllocError>
    ensures { OnOk result (works.new.items ≡ works.old.items ++ visits args.now) }
{
    let mut left = args.len();
    while left > 0 {
        left -= 1;
        works.push(Work::Visit(args[left]))?;
    }
    Ok(())
}

// Puts a term and visits of its arguments in front of all other works.
fn push_inside(terms: &Terms, t: TermId, works: &mut Vec<Work>) -> Result<(), AllocError>
    requires { t.0 < length terms.now.nodes }
    ensures { OnOk result (Inside terms.now t works.old.items works.new.items) }
{
    works.push(Work::Finish(t))?;
    push_visits(works, terms.node(t).args.as_slice())
}

// Goes to a term.
fn visit(terms: &Terms, t: TermId, works: &mut Vec<Work>, done: &IdSet) -> Result<(), AllocError>
    requires t { t.0 < length terms.now.nodes }
    requires works { WorksIn terms.now works.old.items }
    requires done { AllBelow (length terms.now.nodes) done.now }
    ensures { OnOk result
        (IsStep terms.now (Work.Visit t) works.old.items done.now works.new.items done.now) }
{
    terms.law_arena();
    if done.has(t) {
        return Ok(());
    }
    push_inside(terms, t, works)
}

// Does one work.
fn step(
    terms: &Terms,
    work: Work,
    works: &mut Vec<Work>,
    done: &mut IdSet,
) -> Result<(), AllocError>
    requires work { WorkIn terms.now work }
    requires works { WorksIn terms.now works.old.items }
    requires done { AllBelow (length terms.now.nodes) done.old }
    ensures { OnOk result (IsStep terms.now work works.old.items done.old works.new.items done.new) }
{
    terms.law_arena();
    match work {
        Work::Visit(t) => visit(terms, t, works, done),
        Work::Finish(t) => done.add(t),
    }
}

// Terms and their subterms, each once and behind its arguments.
fn all_in_order(alloc: Global, terms: &Terms, roots: &[TermId]) -> Result<IdSet, AllocError>
    requires { AllBelow (length terms.now.nodes) roots.now }
    ensures order { IfOk result
        (λ done. map (tree terms.now) done ≡ order.order_all spec.enters_each (trees terms.now roots.now) []) }
    ensures in_range { IfOk result (AllBelow (length terms.now.nodes)) }
{
    terms.law_arena();
    let mut done = IdSet::new(alloc);
    let mut works = Vec::new(alloc);
    push_visits(&mut works, roots)?;
    while let Some(work) = works.pop() {
        step(terms, work, &mut works, &mut done)?;
    }
    Ok(done)
}

/// The different subterms of terms, in the order of their first appearance, arguments first. Each is
/// visited once.
pub fn subterms(alloc: Global, terms: &Terms, roots: &[TermId]) -> Result<IdSet, AllocError>
    requires { AllBelow (length terms.now.nodes) roots.now }
    ensures order { IfOk result
        (λ done. map (tree terms.now) done ≡ spec.subterms (map (tree terms.now) roots.now)) }
    ensures in_range { IfOk result (AllBelow (length terms.now.nodes)) }
    ensures behind { IfOk result (AreBehind terms.now) }
    ensures roots { IfOk result (λ done. AreReady done (length done) roots.now) }
{
    terms.law_arena();
    all_in_order(alloc, terms, roots)
}
