// What is still to be shown, and showing it.

ghost use Rattle.std.specs.Prelude.{◌≡◌, ◌++◌, [], ◌∷◌, length, slice_get, Some, IfOk, IfNone, IfSome, OnOk};
ghost use Rattle.spv_congruence.specs.Graph.{AreCongruent, Graph};
ghost use Rattle.spv_explanations.specs.equalities.Known.{AreBeside, NumbersOf};
ghost use Rattle.spv_explanations.specs.equalities.Links.{AreAlike, AreOwed, IsOwed, Stands};
ghost use Rattle.spv_derivations.specs.derivation.Literals.{literals};
ghost use Rattle.spv_explanations.specs.equalities.Reasons.{AreSame, GoesOn};

use crate::equalities::known::Known;
use crate::equalities::links::{chain, first_unknown};
use spv_congruence::{Graph, Link};
use spv_derivations::derivation::Derivation;
use spv_logic::list::List;
use spv_term::{TermId, Terms};
use std::alloc::{AllocError, Global};

/// An equation that is still to be shown.
#[derive(Clone, Copy, Debug)]
pub(crate) enum Work {
    /// That of two terms which are the same.
    Between(TermId, TermId),
    /// That of two terms of one head, whose arguments are the same.
    Congruent(TermId, TermId),
}

// The numbers of the equations of arguments, in order; or the first two arguments whose equation has none.
fn argument_numbers(
    known: &Known,
    left: &[TermId],
    right: &[TermId],
    numbers: &mut List<u32>,
) -> Result<Option<(TermId, TermId)>, AllocError>
    requires many { length left.now ≡ length right.now }
    requires empty { numbers.old ≡ [] }
    ensures none { IfOk result (λ o. IfNone o (NumbersOf known.now left.now right.now numbers.new)) }
    ensures some { IfOk result (λ o. IfSome o (λ p. AreBeside left.now right.now p.0 p.1)) }
{
    for place in 0..left.len() {
        match known.number(left[place], right[place]) {
            Some(number) => numbers.push(number)?,
            None => return Ok(Some((left[place], right[place]))),
        }
    }
    Ok(None)
}

// Two further works, the second one first.
fn push_two(works: &mut Vec<Work>, work: Work, before: Work) -> Result<(), AllocError>
    ensures { OnOk result (works.new.items ≡ (works.old.items ++ work ∷ []) ++ before ∷ []) }
{
    works.push(work)?;
    works.push(before)?;
    Ok(())
}

// Shows that two terms of one head are equal, or what their arguments still want.
fn show_congruent(
    alloc: Global,
    derivation: &mut Derivation,
    terms: &Terms,
    known: &mut Known,
    works: &mut Vec<Work>,
    p: TermId,
    q: TermId,
) -> Result<(), AllocError>
    requires { AreAlike terms.now p q }
    ensures goes_on { GoesOn derivation.old derivation.new }
    ensures literals { literals derivation.new ≡ literals derivation.old }
    ensures stands { OnOk result ((g : Graph) → Stands terms.now g derivation.old known.old works.old.items
        → AreCongruent g.nodes g.joins p q → Stands terms.now g derivation.new known.new works.new.items) }
{
    terms.law_arena();
    let mut numbers = List::new(alloc);
    let left = terms.node(p).args.as_slice();
    let right = terms.node(q).args.as_slice();
    match argument_numbers(known, left, right, &mut numbers)? {
        Some((x, y)) => push_two(works, Work::Congruent(p, q), Work::Between(x, y)),
        None => {
            let number = derivation.congruent(p, q, numbers)?;
            known.insert(p, q, number)
        }
    }
}

// Shows that two terms which are the same are equal, or what a link between them still wants.
fn show_between(
    derivation: &mut Derivation,
    terms: &Terms,
    graph: &Graph,
    known: &mut Known,
    works: &mut Vec<Work>,
    s: TermId,
    t: TermId,
) -> Result<(), AllocError>
    requires stands { Stands terms.now graph.now derivation.old known.old works.old.items }
    requires same { AreSame graph.now s t }
    ensures goes_on { GoesOn derivation.old derivation.new }
    ensures literals { literals derivation.new ≡ literals derivation.old }
    ensures stands { OnOk result (Stands terms.now graph.now derivation.new known.new works.new.items) }
{
    let links = graph.explain(s, t)?;
    match first_unknown(known, links.as_slice()) {
        Some((p, q)) => push_two(works, Work::Between(s, t), Work::Congruent(p, q)),
        None => {
            let number = chain(derivation, terms, known, links.as_slice(), s, t)?;
            known.insert(s, t, number)
        }
    }
}

/// Does one work, or puts it back behind another one that it wants.
pub(crate) fn show(
    alloc: Global,
    derivation: &mut Derivation,
    terms: &Terms,
    graph: &Graph,
    known: &mut Known,
    works: &mut Vec<Work>,
    work: Work,
) -> Result<(), AllocError>
    requires stands { Stands terms.now graph.now derivation.old known.old works.old.items }
    requires owed { IsOwed graph.now work }
    ensures goes_on { GoesOn derivation.old derivation.new }
    ensures literals { literals derivation.new ≡ literals derivation.old }
    ensures stands { OnOk result (Stands terms.now graph.now derivation.new known.new works.new.items) }
{
    match work {
        Work::Between(s, t) => show_between(derivation, terms, graph, known, works, s, t),
        Work::Congruent(p, q) => show_congruent(alloc, derivation, terms, known, works, p, q),
    }
}

/// The work that waits last, or where none waits, that of two terms.
pub(crate) fn next_work(works: &mut Vec<Work>, s: TermId, t: TermId) -> Work
    ensures owed { (g : Graph) → AreOwed g works.old.items → AreSame g s t → IsOwed g result }
    ensures others { (g : Graph) → AreOwed g works.old.items → AreOwed g works.new.items }
{
    match works.pop() {
        Some(work) => work,
        None => Work::Between(s, t),
    }
}
