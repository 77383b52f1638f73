//! Proofs with facts of schemas, and near misses of them.

ghost use Rattle.std.specs.Prelude.{◌≡◌, ◌<◌, length, true, IfOk, IsTrue, Some, None, [], ◌∷◌};
ghost use Rattle.spv_logic.specs.declared.types.Sort.TheVariants as sort;
ghost use Rattle.spv_logic.specs.declared.operators.Head.TheVariants.{Num};
ghost use Rattle.spv_logic.specs.Sorts.{numeral_fits};
ghost use Rattle.spv_atoms.specs.declared.proofs.Stated.TheVariants.{Is};
ghost use Rattle.spv_term.specs.Arena.{Extends, sort_at};
ghost use Rattle.spv_proof_steps.specs.Candidates.{IsBool};

use crate::checks::checked;
use spv_atoms::{ProofNode, Stated, Step};
use spv_logic::list::List;
use spv_proof::checker::CheckStop;
use spv_term::{Head, Shapes, TermFault, TermId, Terms};
use std::alloc::{AllocError, Global};
use std::test::Fail;

// A numeral.
fn numeral(terms: &mut Terms, value: i128) -> Result<TermId, TermFault>
    requires { IsTrue (numeral_fits (Num value)) }
    ensures in_range { IfOk result (λ t. t.0 < length terms.new.nodes) }
    ensures sort { IfOk result (λ t. sort_at terms.new t ≡ sort.Int) }
    ensures grows { Extends terms.old terms.new }
{
    terms.make(Head::Num(value), &[])
}

// (= (DIV a k) value), or with MOD.
#[tactic(auto, using(spv_term::proofs::ArenaLemmas::growth))]
fn divided_is(
    terms: &mut Terms,
    remainder: bool,
    a: TermId,
    k: TermId,
    value: TermId,
) -> Result<TermId, TermFault>
    requires a { a.0 < length terms.old.nodes }
    requires k { k.0 < length terms.old.nodes }
    requires value { value.0 < length terms.old.nodes }
    requires a_sort { sort_at terms.old a ≡ sort.Int }
    requires k_sort { sort_at terms.old k ≡ sort.Int }
    requires value_sort { sort_at terms.old value ≡ sort.Int }
    ensures in_range { IfOk result (λ t. t.0 < length terms.new.nodes) }
    ensures sort { IfOk result (λ t. IsBool terms.new t) }
    ensures grows { Extends terms.old terms.new }
{
    let head = if remainder { Head::Mod } else { Head::Div };
    let divided = terms.make(head, &[a, k])?;
    terms.make(Head::Eq, &[divided, value])
}

// -7 and 2.
#[tactic(auto, using(spv_term::proofs::ArenaLemmas::growth))]
fn operands(terms: &mut Terms) -> Result<(TermId, TermId), TermFault>
    ensures a { IfOk result (λ r. r.0.0 < length terms.new.nodes) }
    ensures k { IfOk result (λ r. r.1.0 < length terms.new.nodes) }
    ensures a_sort { IfOk result (λ r. sort_at terms.new r.0 ≡ sort.Int) }
    ensures k_sort { IfOk result (λ r. sort_at terms.new r.1 ≡ sort.Int) }
    ensures grows { Extends terms.old terms.new }
{
    let a = numeral(terms, -7)?;
    let k = numeral(terms, 2)?;
    Ok((a, k))
}

// (= (DIV a k) value), or with MOD, for a numeral.
#[tactic(auto, using(spv_term::proofs::ArenaLemmas::growth))]
fn divided_to(
    terms: &mut Terms,
    remainder: bool,
    a: TermId,
    k: TermId,
    value: i128,
) -> Result<TermId, TermFault>
    requires value { IsTrue (numeral_fits (Num value)) }
    requires a { a.0 < length terms.old.nodes }
    requires k { k.0 < length terms.old.nodes }
    requires a_sort { sort_at terms.old a ≡ sort.Int }
    requires k_sort { sort_at terms.old k ≡ sort.Int }
    ensures in_range { IfOk result (λ t. t.0 < length terms.new.nodes) }
    ensures sort { IfOk result (λ t. IsBool terms.new t) }
    ensures grows { Extends terms.old terms.new }
{
    let value = numeral(terms, value)?;
    divided_is(terms, remainder, a, k, value)
}

// -7 DIV 2 = -3 AND -7 MOD 2 = -1, in an arena for so many terms, with -7 and 2.
#[tactic(auto, using(spv_term::proofs::ArenaLemmas::growth))]
fn truncates(alloc: Global, most: u32) -> Result<(Terms, TermId, TermId, TermId), TermFault>
    ensures a { IfOk result (λ r. r.1.0 < length r.0.nodes) }
    ensures k { IfOk result (λ r. r.2.0 < length r.0.nodes) }
    ensures goal { IfOk result (λ r. r.3.0 < length r.0.nodes) }
    ensures sort { IfOk result (λ r. IsBool r.0 r.3) }
{
    let mut terms = Terms::new(alloc, Shapes::new(alloc), List::new(alloc), most);
    let (a, k) = operands(&mut terms)?;
    let first = divided_to(&mut terms, false, a, k, -3)?;
    let second = divided_to(&mut terms, true, a, k, -1)?;
    let goal = terms.make(Head::And, &[first, second])?;
    Ok((terms, a, k, goal))
}

// The fact of this kind about two terms.
fn about(alloc: Global, kind: u8, a: TermId, k: TermId) -> Result<Step, AllocError>
    ensures { IfOk result (λ s. s ≡ Step.Schema kind (a ∷ k ∷ []) None) }
{
    Ok(Step::Schema(kind, List::from_vec(Vec::from_slice(alloc, &[a, k])?), None))
}

// That the goal is false, a fact of each of two kinds, the goal from these, and the end.
fn by_two_kinds(
    alloc: Global,
    a: TermId,
    k: TermId,
    goal: TermId,
    first: u8,
    second: u8,
) -> Result<Vec<ProofNode>, AllocError>
    ensures { IfOk result (λ v. v.items ≡ record {
      steps = Step.Given 0 ∷ Step.Schema first (a ∷ k ∷ []) None ∷ Step.Schema second (a ∷ k ∷ []) None
          ∷ Step.Eval (Is goal true) (2 ∷ 3 ∷ []) ∷ Step.Contra 4 (Some 1) ∷ [];
      split = None;
    } ∷ []) }
{
    let mut steps = Vec::new(alloc);
    steps.push(Step::Given(0))?;
    steps.push(about(alloc, first, a, k)?)?;
    steps.push(about(alloc, second, a, k)?)?;
    let cited = List::from_vec(Vec::from_slice(alloc, &[2, 3])?);
    steps.push(Step::Eval(Stated::Is(goal, true), cited))?;
    steps.push(Step::Contra(4, Some(1)))?;
    let mut nodes = Vec::new(alloc);
    nodes.push(ProofNode {
        steps: List::from_vec(steps),
        split: None,
    })?;
    Ok(nodes)
}

#[test]
fn quotient_and_remainder_truncate(rt: HostRuntime) -> Result<(), Fail> {
    let (mut terms, a, k, goal) = truncates(rt.alloc(), 10)?;
    let nodes = by_two_kinds(rt.alloc(), a, k, goal, 19, 20)?;
    assert_eq!(rt;
        checked(rt.alloc(), &mut terms, goal, nodes).ok(),
        Some(true)
    );
    assert_eq!(rt; terms.len(), 10);
    Ok(())
}

#[test]
fn one_kind_twice(rt: HostRuntime) -> Result<(), Fail> {
    let (mut terms, a, k, goal) = truncates(rt.alloc(), 10)?;
    let nodes = by_two_kinds(rt.alloc(), a, k, goal, 19, 19)?;
    assert_eq!(rt;
        checked(rt.alloc(), &mut terms, goal, nodes).ok(),
        Some(false)
    );
    Ok(())
}

#[test]
fn the_quotient_has_no_room(rt: HostRuntime) -> Result<(), Fail> {
    let (mut terms, a, k, goal) = truncates(rt.alloc(), 10)?;
    let nodes = by_two_kinds(rt.alloc(), a, k, goal, 16, 20)?;
    let stop = checked(rt.alloc(), &mut terms, goal, nodes);
    assert!(rt; matches!(stop, Err(CheckStop::Size)));
    Ok(())
}
