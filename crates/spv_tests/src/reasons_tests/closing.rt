// A path that is closed by a reason.

ghost use Rattle.std.specs.Prelude.{◌≡◌, ◌<◌, length, Some, IfOk, OnOk, IsTrue};
ghost use Rattle.spv_logic.specs.declared.conditions.TermId.{TermId};
ghost use Rattle.spv_congruence.specs.Keep.{IsNode};
ghost use Rattle.spv_term.specs.Arena.{tree};
ghost use Rattle.spv_derivations.specs.derivation.Derivation.{Gains, PartFits, literal};
ghost use Rattle.spv_derivations.specs.derivation.Sides.{sides_at};
ghost use Rattle.spv_tests.specs.reasons_tests.Ready.{IsExample, IsReady};

use crate::reasons_tests::examples::{Example, make_example};
use spv_atoms::Step;
use spv_congruence::Graph;
use spv_derivations::derivation::{Derivation, Part};
use spv_explanations::equalities::{contradiction, law_backed};
use spv_logic::list::List;
use spv_term::{Shapes, TermId, Terms};
use std::alloc::{AllocError, Global};
use std::test::Fail;

// Whether there is a term of this number.
fn is_term(terms: &Terms, t: TermId) -> bool
    ensures { IsTrue result → t.0 < length terms.now.nodes }
{
    t.0 < terms.len()
}

// Adds a term.
fn put(
    terms: &Terms,
    graph: &mut Graph,
    derivation: &Derivation,
    t: TermId,
) -> Result<(), AllocError>
    requires ready { IsReady terms.now graph.old derivation.now }
    requires within { t.0 < length terms.now.nodes }
    ensures ready { OnOk result (IsReady terms.now graph.new derivation.now) }
    ensures node { OnOk result (IsNode graph.new.nodes t) }
    ensures kept { OnOk result ((u : TermId) → IsNode graph.old.nodes u → IsNode graph.new.nodes u) }
{
    law_backed();
    let _ = derivation;
    graph.add(terms, t)
}

// Adds two terms.
fn put_both(
    terms: &Terms,
    graph: &mut Graph,
    derivation: &Derivation,
    s: TermId,
    t: TermId,
) -> Result<(), AllocError>
    requires ready { IsReady terms.now graph.old derivation.now }
    requires left { s.0 < length terms.now.nodes }
    requires right { t.0 < length terms.now.nodes }
    ensures ready { OnOk result (IsReady terms.now graph.new derivation.now) }
    ensures left { OnOk result (IsNode graph.new.nodes s) }
    ensures right { OnOk result (IsNode graph.new.nodes t) }
{
    put(terms, graph, derivation, s)?;
    put(terms, graph, derivation, t)
}

// Joins the sides of a fact.
fn join(
    terms: &Terms,
    graph: &mut Graph,
    derivation: &Derivation,
    s: TermId,
    t: TermId,
    number: u32,
) -> Result<(), AllocError>
    requires ready { IsReady terms.now graph.old derivation.now }
    requires left { s.0 < length terms.now.nodes }
    requires right { t.0 < length terms.now.nodes }
    requires sides { sides_at terms.now derivation.now number ≡ Some (s, t) }
    ensures { OnOk result (IsReady terms.now graph.new derivation.now) }
{
    law_backed();
    put_both(terms, graph, derivation, s, t)?;
    graph.join(s, t, number)
}

// Tells a fact.
fn tell(
    terms: &Terms,
    graph: &Graph,
    derivation: &mut Derivation,
    p: TermId,
    part: Part,
    why: u32,
) -> Result<u32, AllocError>
    requires ready { IsReady terms.now graph.now derivation.old }
    requires within { p.0 < length terms.now.nodes }
    requires part { PartFits terms.now p part }
    ensures ready { OnOk result (IsReady terms.now graph.now derivation.new) }
    ensures gains { IfOk result (λ n. Gains terms.now derivation.old derivation.new n (literal (tree terms.now p) part)) }
{
    law_backed();
    let _ = terms;
    let _ = graph;
    derivation.told(p, part, why)
}

// Tells an equation and joins its sides.
fn tell_equation(
    terms: &Terms,
    graph: &mut Graph,
    derivation: &mut Derivation,
    p: TermId,
    why: u32,
) -> Result<bool, AllocError>
    requires ready { IsReady terms.now graph.old derivation.old }
    requires within { p.0 < length terms.now.nodes }
    ensures { OnOk result (IsReady terms.now graph.new derivation.new) }
{
    let number = tell(terms, graph, derivation, p, Part::True, why)?;
    let Some((s, t)) = derivation.sides(terms, number) else {
        return Ok(false);
    };
    if !is_term(terms, s) {
        return Ok(false);
    }
    if !is_term(terms, t) {
        return Ok(false);
    }
    join(terms, graph, derivation, s, t, number)?;
    Ok(true)
}

// The steps that close a path on which two terms are the same and their equation is denied.
fn denied(
    alloc: Global,
    terms: &Terms,
    graph: &mut Graph,
    derivation: &mut Derivation,
    e: Example,
) -> Result<Option<Vec<Step>>, AllocError>
    requires ready { IsReady terms.now graph.old derivation.old }
    requires example { IsExample terms.now e.left e.right e.equal e.both }
{
    let number = tell(terms, graph, derivation, e.both, Part::False, 2)?;
    put_both(terms, graph, derivation, e.left, e.right)?;
    if !graph.same(e.left, e.right) {
        return Ok(None);
    }
    graph.law_terms();
    let (first, second) = contradiction(
        alloc,
        derivation,
        terms,
        graph,
        e.left,
        e.right,
        Some(number),
    )?;
    Ok(Some(derivation.closing_steps(alloc, 2, first, second)?))
}

// The steps that close a path with two facts: that two lists are equal, and that their first parts are not.
fn closing(alloc: Global, terms: &Terms, e: Example) -> Result<Option<Vec<Step>>, AllocError>
    requires { IsExample terms.now e.left e.right e.equal e.both }
{
    let mut derivation = Derivation::new(alloc);
    let mut graph = Graph::new(alloc);
    if !tell_equation(terms, &mut graph, &mut derivation, e.equal, 1)? {
        return Ok(None);
    }
    denied(alloc, terms, &mut graph, &mut derivation, e)
}

// Whether steps are a congruence by fact 1 of two terms, and the end by facts 3 and 2.
fn are_wanted(steps: &[Step], left: TermId, right: TermId) -> bool {
    match steps {
        [Step::Cong(s, t, ks), Step::Contra(3, Some(2))] => {
            s.0 == left.0 && t.0 == right.0 && ks.as_slice() == [1].as_slice()
        }
        _ => false,
    }
}

#[test]
fn equal_lists_with_other_first_parts(rt: HostRuntime) -> Result<(), Fail> {
    let alloc = rt.alloc();
    let mut terms = Terms::new(alloc, Shapes::new(alloc), List::new(alloc), 100);
    let e = make_example(&mut terms)?;
    let steps = closing(alloc, &terms, e)?.expect(&rt, "no steps");
    assert!(rt; are_wanted(steps.as_slice(), e.left, e.right));
    Ok(())
}
