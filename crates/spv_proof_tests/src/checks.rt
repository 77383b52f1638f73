//! Proofs by hand, near misses of them, and a full arena.

ghost use Rattle.std.specs.Prelude.{◌≡◌, ◌<◌, length, IfOk, IsTrue, None, [], ◌∷◌};
ghost use Rattle.spv_atoms.specs.Shape.{is_tree};
ghost use Rattle.spv_proof_rules.specs.Stand.{NodesIn, StepsIn};
ghost use Rattle.spv_proof_steps.specs.Candidates.{IsBool};

use spv_atoms::{Proof, ProofNode, Step};
use spv_logic::list::List;
use spv_proof::checker::{CheckStop, check};
use spv_term::{Condition, Head, Kind, Origin, RoutineId, Shapes, TermFault, TermId, Terms};
use std::alloc::Global;
use std::test::Fail;

// An arena for at most so many terms, with 1 and (= 1 1).
fn one_is_one(alloc: Global, most: u32) -> Result<(Terms, TermId, TermId), TermFault>
    ensures one { IfOk result (λ r. r.1.0 < length r.0.nodes) }
    ensures goal { IfOk result (λ r. r.2.0 < length r.0.nodes) }
    ensures goal_sort { IfOk result (λ r. IsBool r.0 r.2) }
{
    let mut terms = Terms::new(alloc, Shapes::new(alloc), List::new(alloc), most);
    let one = terms.make(Head::Num(1), &[])?;
    let goal = terms.make(Head::Eq, &[one, one])?;
    Ok((terms, one, goal))
}

// What the check of a proof comes to, of a goal without hypotheses.
pub(crate) fn checked(
    alloc: Global,
    terms: &mut Terms,
    goal: TermId,
    nodes: Vec<ProofNode>,
) -> Result<bool, CheckStop>
    requires goal { goal.0 < length terms.old.nodes }
    requires sort { IsBool terms.old goal }
    requires tree { IsTrue (is_tree nodes.items) }
    requires nodes { NodesIn terms.old nodes.items }
{
    let origin = Origin {
        routine: Some(RoutineId(0)),
        kind: Kind::Exit,
        line: 1,
    };
    let given = List::new(alloc);
    let condition = Condition {
        given,
        goal,
        origin,
    };
    check(alloc, terms, &condition, &Proof::new(nodes))
}

// One node: that the goal is false, a term's equation with itself, and an end.
fn by_refl(alloc: Global, t: TermId, end: Step) -> Result<Vec<ProofNode>, Fail>
    ensures { IfOk result (λ v. v.items
        ≡ record { steps = Step.Given 0 ∷ Step.Refl t ∷ end ∷ []; split = None } ∷ []) }
{
    let mut steps = Vec::new(alloc);
    steps.push(Step::Given(0))?;
    steps.push(Step::Refl(t))?;
    steps.push(end)?;
    let mut nodes = Vec::new(alloc);
    let node = ProofNode {
        steps: List::from_vec(steps),
        split: None,
    };
    nodes.push(node)?;
    Ok(nodes)
}

#[test]
fn refl(rt: HostRuntime) -> Result<(), Fail> {
    let (mut terms, one, goal) = one_is_one(rt.alloc(), 3)?;
    let nodes = by_refl(rt.alloc(), one, Step::Contra(1, Some(2)))?;
    assert_eq!(rt;
        checked(rt.alloc(), &mut terms, goal, nodes).ok(),
        Some(true)
    );
    assert_eq!(rt; terms.len(), 3);
    Ok(())
}

#[test]
fn contra_of_no_opposites(rt: HostRuntime) -> Result<(), Fail> {
    let (mut terms, one, goal) = one_is_one(rt.alloc(), 3)?;
    let nodes = by_refl(rt.alloc(), one, Step::Contra(2, Some(2)))?;
    assert_eq!(rt;
        checked(rt.alloc(), &mut terms, goal, nodes).ok(),
        Some(false)
    );
    Ok(())
}

#[test]
fn no_room_for_a_fact(rt: HostRuntime) -> Result<(), Fail> {
    let (mut terms, one, goal) = one_is_one(rt.alloc(), 2)?;
    let nodes = by_refl(rt.alloc(), one, Step::Contra(1, Some(2)))?;
    let stop = checked(rt.alloc(), &mut terms, goal, nodes);
    assert!(rt; matches!(stop, Err(CheckStop::Size)));
    Ok(())
}
