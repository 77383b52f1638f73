//! Proofs with cases, and near misses of them.

ghost use Rattle.std.specs.Prelude.{◌≡◌, ◌<◌, length, IfOk, IsTrue, Some, None, [], ◌∷◌};
ghost use Rattle.spv_atoms.specs.Shape.{is_tree};
ghost use Rattle.spv_proof_rules.specs.Stand.{NodesIn};
ghost use Rattle.spv_proof_steps.specs.Candidates.{IsBool};

use spv_atoms::{Proof, ProofNode, Split, Step};
use spv_logic::list::List;
use spv_logic::names::Symbol;
use spv_proof::checker::{CheckStop, check};
use spv_term::{Condition, Head, Kind, Origin, RoutineId, Shapes, Sort, TermFault, TermId, Terms};
use std::alloc::{AllocError, Global};
use std::test::Fail;

// An arena with P.
fn formula(alloc: Global) -> Result<(Terms, TermId), TermFault>
    ensures in_range { IfOk result (λ r. r.1.0 < length r.0.nodes) }
    ensures sort { IfOk result (λ r. IsBool r.0 r.1) }
{
    let mut terms = Terms::new(alloc, Shapes::new(alloc), List::new(alloc), 9);
    let p = terms.make(Head::Var(Symbol(0), Sort::Bool, 0), &[])?;
    Ok((terms, p))
}

// An arena with (= X Y).
#[tactic(auto, using(spv_term::proofs::ArenaLemmas::growth))]
fn equation(alloc: Global) -> Result<(Terms, TermId), TermFault>
    ensures in_range { IfOk result (λ r. r.1.0 < length r.0.nodes) }
    ensures sort { IfOk result (λ r. IsBool r.0 r.1) }
{
    let mut terms = Terms::new(alloc, Shapes::new(alloc), List::new(alloc), 9);
    let x = terms.make(Head::Var(Symbol(0), Sort::Int, 0), &[])?;
    let y = terms.make(Head::Var(Symbol(1), Sort::Int, 0), &[])?;
    let same = terms.make(Head::Eq, &[x, y])?;
    Ok((terms, same))
}

// What the check of a proof comes to, of a goal that is its own hypothesis.
fn checked(
    alloc: Global,
    terms: &mut Terms,
    goal: TermId,
    nodes: Vec<ProofNode>,
) -> Result<bool, CheckStop>
    requires goal { goal.0 < length terms.old.nodes }
    requires sort { IsBool terms.old goal }
    requires tree { IsTrue (is_tree nodes.items) }
    requires nodes { NodesIn terms.old nodes.items }
{
    let condition = Condition {
        given: List::from_vec(Vec::from_slice(alloc, &[goal])?),
        goal,
        origin: Origin {
            routine: Some(RoutineId(0)),
            kind: Kind::Exit,
            line: 1,
        },
    };
    check(alloc, terms, &condition, &Proof::new(nodes))
}

// That the goal is false, and the cases of an atom.
fn cases(alloc: Global, atom: TermId, parts: &[u32]) -> Result<ProofNode, AllocError>
    ensures { IfOk result (λ n. n
        ≡ record { steps = Step.Given 0 ∷ []; split = Some (record { atom = atom; parts = parts.now }) }) }
{
    let mut steps = Vec::new(alloc);
    steps.push(Step::Given(0))?;
    Ok(ProofNode {
        steps: List::from_vec(steps),
        split: Some(Split {
            atom,
            parts: List::from_vec(Vec::from_slice(alloc, parts)?),
        }),
    })
}

// The end by two facts.
fn end(alloc: Global, i: u32, j: u32) -> Result<ProofNode, AllocError>
    ensures { IfOk result (λ n. n ≡ record { steps = Step.Contra i (Some j) ∷ []; split = None }) }
{
    let mut steps = Vec::new(alloc);
    steps.push(Step::Contra(i, Some(j)))?;
    Ok(ProofNode {
        steps: List::from_vec(steps),
        split: None,
    })
}

// The hypothesis, and the end by two facts.
fn hypothesis(alloc: Global, i: u32, j: u32) -> Result<ProofNode, AllocError>
    ensures { IfOk result (λ n. n ≡ record { steps = Step.Given 1 ∷ Step.Contra i (Some j) ∷ []; split = None }) }
{
    let mut steps = Vec::new(alloc);
    steps.push(Step::Given(1))?;
    steps.push(Step::Contra(i, Some(j)))?;
    Ok(ProofNode {
        steps: List::from_vec(steps),
        split: None,
    })
}

// The cases of P: the first ends by two facts, and so does the second after the hypothesis, or without it.
fn of_two(alloc: Global, atom: TermId, last: ProofNode) -> Result<Vec<ProofNode>, AllocError>
    ensures { IfOk result (λ v. v.items ≡ record { steps = Step.Given 0 ∷ []; split = Some (record { atom = atom; parts = 1 ∷ 2 ∷ [] }) }
        ∷ record { steps = Step.Given 1 ∷ Step.Contra 1 (Some 3) ∷ []; split = None } ∷ last ∷ []) }
{
    let mut nodes = Vec::new(alloc);
    nodes.push(cases(alloc, atom, &[1, 2])?)?;
    nodes.push(hypothesis(alloc, 1, 3)?)?;
    nodes.push(last)?;
    Ok(nodes)
}

// The cases of (= X Y), of which the first says just that.
fn of_three(alloc: Global, atom: TermId, last: ProofNode) -> Result<Vec<ProofNode>, AllocError>
    ensures { IfOk result (λ v. v.items ≡ record { steps = Step.Given 0 ∷ []; split = Some (record { atom = atom; parts = 1 ∷ 2 ∷ 3 ∷ [] }) }
        ∷ record { steps = Step.Contra 1 (Some 2) ∷ []; split = None }
        ∷ record { steps = Step.Given 1 ∷ Step.Contra 1 (Some 3) ∷ []; split = None } ∷ last ∷ []) }
{
    let mut nodes = Vec::new(alloc);
    nodes.push(cases(alloc, atom, &[1, 2, 3])?)?;
    nodes.push(end(alloc, 1, 2)?)?;
    nodes.push(hypothesis(alloc, 1, 3)?)?;
    nodes.push(last)?;
    Ok(nodes)
}

// The cases of P, and in the first of them again: facts 1 and 3 are negations, and so is 4 in the inner second.
fn nested(alloc: Global, atom: TermId, last: ProofNode) -> Result<Vec<ProofNode>, AllocError>
    ensures { IfOk result (λ v. v.items ≡ record { steps = Step.Given 0 ∷ []; split = Some (record { atom = atom; parts = 1 ∷ 4 ∷ [] }) }
        ∷ record { steps = Step.Given 0 ∷ []; split = Some (record { atom = atom; parts = 2 ∷ 3 ∷ [] }) }
        ∷ record { steps = Step.Contra 1 (Some 4) ∷ []; split = None }
        ∷ record { steps = Step.Contra 2 (Some 4) ∷ []; split = None } ∷ last ∷ []) }
{
    let mut nodes = Vec::new(alloc);
    nodes.push(cases(alloc, atom, &[1, 4])?)?;
    nodes.push(cases(alloc, atom, &[2, 3])?)?;
    nodes.push(end(alloc, 1, 4)?)?;
    nodes.push(end(alloc, 2, 4)?)?;
    nodes.push(last)?;
    Ok(nodes)
}

#[test]
fn two_cases(rt: HostRuntime) -> Result<(), Fail> {
    let (mut terms, p) = formula(rt.alloc())?;
    let nodes = of_two(rt.alloc(), p, hypothesis(rt.alloc(), 2, 3)?)?;
    assert_eq!(rt; checked(rt.alloc(), &mut terms, p, nodes).ok(), Some(true));
    Ok(())
}

// Fact 3 is the hypothesis, but on the path of the first case.
#[test]
fn a_fact_of_a_sister_case(rt: HostRuntime) -> Result<(), Fail> {
    let (mut terms, p) = formula(rt.alloc())?;
    let nodes = of_two(rt.alloc(), p, end(rt.alloc(), 2, 3)?)?;
    assert_eq!(rt; checked(rt.alloc(), &mut terms, p, nodes).ok(), Some(false));
    Ok(())
}

#[test]
fn three_cases(rt: HostRuntime) -> Result<(), Fail> {
    let (mut terms, same) = equation(rt.alloc())?;
    let nodes = of_three(rt.alloc(), same, hypothesis(rt.alloc(), 1, 3)?)?;
    assert_eq!(rt;
        checked(rt.alloc(), &mut terms, same, nodes).ok(),
        Some(true)
    );
    Ok(())
}

// The last case says that Y is below X.
#[test]
fn a_case_of_three_that_says_another_thing(rt: HostRuntime) -> Result<(), Fail> {
    let (mut terms, same) = equation(rt.alloc())?;
    let nodes = of_three(rt.alloc(), same, end(rt.alloc(), 1, 2)?)?;
    assert_eq!(rt;
        checked(rt.alloc(), &mut terms, same, nodes).ok(),
        Some(false)
    );
    Ok(())
}

#[test]
fn two_cases_of_three(rt: HostRuntime) -> Result<(), Fail> {
    let (mut terms, same) = equation(rt.alloc())?;
    let nodes = of_two(rt.alloc(), same, hypothesis(rt.alloc(), 1, 3)?)?;
    assert_eq!(rt;
        checked(rt.alloc(), &mut terms, same, nodes).ok(),
        Some(false)
    );
    Ok(())
}

#[test]
fn cases_in_a_case(rt: HostRuntime) -> Result<(), Fail> {
    let (mut terms, p) = formula(rt.alloc())?;
    let nodes = nested(rt.alloc(), p, hypothesis(rt.alloc(), 2, 3)?)?;
    assert_eq!(rt; checked(rt.alloc(), &mut terms, p, nodes).ok(), Some(true));
    Ok(())
}

// Facts 2 and 4 are contrary in the inner case alone.
#[test]
fn an_end_of_an_inner_case(rt: HostRuntime) -> Result<(), Fail> {
    let (mut terms, p) = formula(rt.alloc())?;
    let nodes = nested(rt.alloc(), p, end(rt.alloc(), 2, 4)?)?;
    assert_eq!(rt; checked(rt.alloc(), &mut terms, p, nodes).ok(), Some(false));
    Ok(())
}
