//! Why two terms of a graph are equal, and why they may not be.

ghost use Rattle.std.specs.Prelude.{◌≡◌, ◌<◌, length, None, IfOk, OnErr};
ghost use Rattle.spv_logic.specs.Formulas.{equation};
ghost use Rattle.spv_term.specs.Arena.{tree};
ghost use Rattle.spv_derivations.specs.derivation.Derivation.{Gains, IsDerivation};
ghost use Rattle.spv_derivations.specs.derivation.Literals.{literals};
ghost use Rattle.spv_explanations.specs.equalities.Reasons.{AreOpposites, AreSame, Closes, Equates, GoesOn, MayNotBeSame, MayReason};

use crate::equalities::known::Known;
use crate::equalities::works::{next_work, show};
use spv_congruence::Graph;
use spv_derivations::derivation::Derivation;
use spv_term::{Head, TermId, Terms};
use std::alloc::{AllocError, Global};

// The number of the fact that two terms are equal. Where it takes more turns than there may be facts, the answer is want of memory.
fn find_reason(
    alloc: Global,
    derivation: &mut Derivation,
    terms: &Terms,
    graph: &Graph,
    s: TermId,
    t: TermId,
) -> Result<u32, AllocError>
    requires stands { MayReason terms.now graph.now derivation.old }
    requires same { AreSame graph.now s t }
    ensures goes_on { GoesOn derivation.old derivation.new }
    ensures literals { literals derivation.new ≡ literals derivation.old }
    ensures gains { IfOk result (λ n. Gains terms.now derivation.old derivation.new n (equation (tree terms.now s) (tree terms.now t))) }
{
    let mut known = Known::new(alloc);
    let mut works = Vec::new(alloc);
    for _ in 0..u32::MAX {
        if let Some(number) = known.number(s, t) {
            return Ok(number);
        }
        let work = next_work(&mut works, s, t);
        show(
            alloc, derivation, terms, graph, &mut known, &mut works, work,
        )?;
    }
    Err(AllocError)
}

/// The number of the fact that two terms are equal which are the same in the graph. What it needs is put into the derivation: an equality
/// that was told, or the congruence of two terms whose arguments are equal for a reason, one link behind the other. Each congruence is
/// put there once. After an error the derivation is as it was.
pub fn reason(
    alloc: Global,
    derivation: &mut Derivation,
    terms: &Terms,
    graph: &Graph,
    s: TermId,
    t: TermId,
) -> Result<u32, AllocError>
    requires stands { MayReason terms.now graph.now derivation.old }
    requires same { AreSame graph.now s t }
    ensures gains { IfOk result (λ n. Gains terms.now derivation.old derivation.new n (equation (tree terms.now s) (tree terms.now t))) }
    ensures err { OnErr result (derivation.new ≡ derivation.old) }
    ensures literals { literals derivation.new ≡ literals derivation.old }
{
    let start = derivation.len();
    match find_reason(alloc, derivation, terms, graph, s, t) {
        Ok(number) => Ok(number),
        Err(fault) => {
            derivation.keep(start);
            Err(fault)
        }
    }
}

// The number of a fact that is never true, where a fact equates two numerals, or TRUE and FALSE.
fn opposed_end(
    derivation: &mut Derivation,
    terms: &Terms,
    s: TermId,
    t: TermId,
    number: u32,
) -> Result<u32, AllocError>
    requires { s.0 < length terms.now.nodes }
    ensures goes_on { GoesOn derivation.old derivation.new }
    ensures literals { literals derivation.new ≡ literals derivation.old }
    ensures closes { IfOk result (λ n. IsDerivation terms.now derivation.old → Equates terms.now derivation.old number s t
        → AreOpposites terms.now s t → Closes terms.now derivation.old derivation.new n None) }
{
    terms.law_arena();
    match terms.node(s).head {
        Head::False => derivation.falsity(s, number),
        Head::True => derivation.falsity(t, number),
        _ => Ok(number),
    }
}

// One or two facts that end the path, since two terms are equal that may not be.
fn find_contradiction(
    alloc: Global,
    derivation: &mut Derivation,
    terms: &Terms,
    graph: &Graph,
    s: TermId,
    t: TermId,
    denied: Option<u32>,
) -> Result<(u32, Option<u32>), AllocError>
    requires stands { MayReason terms.now graph.now derivation.old }
    requires same { AreSame graph.now s t }
    requires why { MayNotBeSame terms.now graph.now derivation.old s t denied }
    ensures goes_on { GoesOn derivation.old derivation.new }
    ensures literals { literals derivation.new ≡ literals derivation.old }
    ensures closes { IfOk result (λ p. Closes terms.now derivation.old derivation.new p.0 p.1) }
{
    let number = find_reason(alloc, derivation, terms, graph, s, t)?;
    match denied {
        Some(k) => Ok((number, Some(k))),
        None => {
            let end = opposed_end(derivation, terms, s, t, number)?;
            Ok((end, None))
        }
    }
}

/// One or two facts that end the path, since two terms are the same that may not be: the number of the fact that denies it is given, or
/// they are two numerals, or TRUE and FALSE. After an error the derivation is as it was.
pub fn contradiction(
    alloc: Global,
    derivation: &mut Derivation,
    terms: &Terms,
    graph: &Graph,
    s: TermId,
    t: TermId,
    denied: Option<u32>,
) -> Result<(u32, Option<u32>), AllocError>
    requires stands { MayReason terms.now graph.now derivation.old }
    requires same { AreSame graph.now s t }
    requires why { MayNotBeSame terms.now graph.now derivation.old s t denied }
    ensures closes { IfOk result (λ p. Closes terms.now derivation.old derivation.new p.0 p.1) }
    ensures err { OnErr result (derivation.new ≡ derivation.old) }
    ensures literals { literals derivation.new ≡ literals derivation.old }
{
    let before = derivation.len();
    match find_contradiction(alloc, derivation, terms, graph, s, t, denied) {
        Ok(pair) => Ok(pair),
        Err(fault) => {
            derivation.keep(before);
            Err(fault)
        }
    }
}
