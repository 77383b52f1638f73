//! Relations that sums of multiples of facts show.

ghost use Rattle.std.specs.Prelude.{◌≡◌, ◌<◌, length, IfOk, Some, None, [], ◌∷◌};
ghost use Rattle.spv_logic.specs.declared.types.Sort.TheVariants as sort;
ghost use Rattle.spv_term.specs.Arena.{Extends, sort_at};
ghost use Rattle.spv_proof_rules.specs.Stand.{RelationIn};
ghost use Rattle.spv_proof_steps.specs.Candidates.{IsBool};

use spv_atoms::{Proof, ProofNode, Relation, Step};
use spv_frac::Frac;
use spv_logic::list::List;
use spv_logic::names::Symbol;
use spv_proof::checker::{CheckStop, check};
use spv_term::{Condition, Head, Kind, Origin, RoutineId, Shapes, Sort, TermFault, TermId, Terms};
use std::alloc::{AllocError, Global};
use std::test::Fail;

// An arena with X and Y.
fn unknowns(alloc: Global) -> Result<(Terms, TermId, TermId), TermFault>
    ensures x { IfOk result (λ r. r.1.0 < length r.0.nodes) }
    ensures y { IfOk result (λ r. r.2.0 < length r.0.nodes) }
    ensures x_sort { IfOk result (λ r. sort_at r.0 r.1 ≡ sort.Int) }
    ensures y_sort { IfOk result (λ r. sort_at r.0 r.2 ≡ sort.Int) }
{
    let mut terms = Terms::new(alloc, Shapes::new(alloc), List::new(alloc), 20);
    let x = terms.make(Head::Var(Symbol(0), Sort::Int, 0), &[])?;
    let y = terms.make(Head::Var(Symbol(1), Sort::Int, 0), &[])?;
    Ok((terms, x, y))
}

// How two numbers are related.
#[derive(Clone, Copy)]
enum How {
    Below,
    AtMost,
    Above,
}

// (< s t), (<= s t) or (< t s).
fn related(terms: &mut Terms, how: How, s: TermId, t: TermId) -> Result<TermId, TermFault>
    requires s { s.0 < length terms.old.nodes }
    requires t { t.0 < length terms.old.nodes }
    requires s_sort { sort_at terms.old s ≡ sort.Int }
    requires t_sort { sort_at terms.old t ≡ sort.Int }
    ensures in_range { IfOk result (λ r. r.0 < length terms.new.nodes) }
    ensures sort { IfOk result (λ r. IsBool terms.new r) }
    ensures grows { Extends terms.old terms.new }
{
    match how {
        How::Below => terms.make(Head::Lt, &[s, t]),
        How::AtMost => terms.make(Head::Le, &[s, t]),
        How::Above => terms.make(Head::Lt, &[t, s]),
    }
}

// (< Y (+ X 1)), with 1.
#[tactic(auto, using(spv_term::proofs::ArenaLemmas::growth))]
fn below_next(terms: &mut Terms, x: TermId, y: TermId) -> Result<(TermId, TermId), TermFault>
    requires x { x.0 < length terms.old.nodes }
    requires y { y.0 < length terms.old.nodes }
    requires x_sort { sort_at terms.old x ≡ sort.Int }
    requires y_sort { sort_at terms.old y ≡ sort.Int }
    ensures below { IfOk result (λ r. r.0.0 < length terms.new.nodes) }
    ensures one { IfOk result (λ r. r.1.0 < length terms.new.nodes) }
    ensures below_sort { IfOk result (λ r. IsBool terms.new r.0) }
    ensures one_sort { IfOk result (λ r. sort_at terms.new r.1 ≡ sort.Int) }
    ensures grows { Extends terms.old terms.new }
{
    let one = terms.make(Head::Num(1), &[])?;
    let next = terms.make(Head::Add, &[x, one])?;
    let below = terms.make(Head::Lt, &[y, next])?;
    Ok((below, one))
}

// 0, and (<= 1 0).
fn no_order(terms: &mut Terms, one: TermId) -> Result<(TermId, TermId), TermFault>
    requires one { one.0 < length terms.old.nodes }
    requires one_sort { sort_at terms.old one ≡ sort.Int }
    ensures zero { IfOk result (λ r. r.0.0 < length terms.new.nodes) }
    ensures goal { IfOk result (λ r. r.1.0 < length terms.new.nodes) }
    ensures goal_sort { IfOk result (λ r. IsBool terms.new r.1) }
    ensures grows { Extends terms.old terms.new }
{
    let zero = terms.make(Head::Num(0), &[])?;
    let goal = terms.make(Head::Le, &[one, zero])?;
    Ok((zero, goal))
}

// m times fact i, and n times fact j.
fn two(alloc: Global, m: i64, i: u32, n: i64, j: u32) -> Result<List<(Frac, u32)>, AllocError> {
    let mut multiples = Vec::new(alloc);
    multiples.push((Frac::whole(m), i))?;
    multiples.push((Frac::whole(n), j))?;
    Ok(List::from_vec(multiples))
}

// One node: both hypotheses, a relation by sums, that the goal is false, and an end.
fn by_sums(
    alloc: Global,
    relation: Relation,
    first: List<(Frac, u32)>,
    second: List<(Frac, u32)>,
) -> Result<Vec<ProofNode>, AllocError>
    ensures { IfOk result (λ v. v.items ≡ record {
      steps = Step.Given 1 ∷ Step.Given 2 ∷ Step.Linear relation first second
          ∷ Step.Given 0 ∷ Step.Contra 3 (Some 4) ∷ [];
      split = None;
    } ∷ []) }
{
    let mut steps = Vec::new(alloc);
    steps.push(Step::Given(1))?;
    steps.push(Step::Given(2))?;
    steps.push(Step::Linear(relation, first, second))?;
    steps.push(Step::Given(0))?;
    steps.push(Step::Contra(3, Some(4)))?;
    let mut nodes = Vec::new(alloc);
    let node = ProofNode {
        steps: List::from_vec(steps),
        split: None,
    };
    nodes.push(node)?;
    Ok(nodes)
}

// A list of two terms.
fn pair(alloc: Global, both: (TermId, TermId)) -> Result<List<TermId>, AllocError>
    ensures { IfOk result (λ l. l ≡ both.0 ∷ both.1 ∷ []) }
{
    let mut terms = Vec::new(alloc);
    terms.push(both.0)?;
    terms.push(both.1)?;
    Ok(List::from_vec(terms))
}

// Whether this proof of a goal from two hypotheses is accepted.
fn is_accepted(
    alloc: Global,
    terms: &mut Terms,
    given: (TermId, TermId),
    goal: TermId,
    relation: Relation,
    first: List<(Frac, u32)>,
    second: List<(Frac, u32)>,
) -> Result<bool, CheckStop>
    requires first_given { given.0.0 < length terms.old.nodes }
    requires second_given { given.1.0 < length terms.old.nodes }
    requires first_sort { IsBool terms.old given.0 }
    requires second_sort { IsBool terms.old given.1 }
    requires goal { goal.0 < length terms.old.nodes }
    requires goal_sort { IsBool terms.old goal }
    requires relation { RelationIn terms.old relation }
{
    let nodes = by_sums(alloc, relation, first, second)?;
    let condition = Condition {
        given: pair(alloc, given)?,
        goal,
        origin: Origin {
            routine: Some(RoutineId(0)),
            kind: Kind::Exit,
            line: 1,
        },
    };
    check(alloc, terms, &condition, &Proof::new(nodes))
}

// Whether m times a relation of X and Y, and n times (< Y (+ X 1)), are accepted for (<= 1 0).
#[tactic(auto, using(spv_term::proofs::ArenaLemmas::growth))]
fn closes_gap(alloc: Global, how: How, m: i64, n: i64) -> Result<Option<bool>, Fail> {
    let (mut terms, x, y) = unknowns(alloc)?;
    let left = related(&mut terms, how, x, y)?;
    let (right, one) = below_next(&mut terms, x, y)?;
    let (zero, goal) = no_order(&mut terms, one)?;
    let first = two(alloc, m, 1, n, 2)?;
    let relation = Relation::AtMost(one, zero);
    let given = (left, right);
    let answer = is_accepted(
        alloc,
        &mut terms,
        given,
        goal,
        relation,
        first,
        List::new(alloc),
    );
    Ok(answer.ok())
}

// Whether (= X Y) is accepted from (<= X Y) and (<= Y X), where the second list cites fact j.
#[tactic(auto, using(spv_term::proofs::ArenaLemmas::growth))]
fn equals(alloc: Global, j: u32) -> Result<Option<bool>, Fail> {
    let (mut terms, x, y) = unknowns(alloc)?;
    let left = related(&mut terms, How::AtMost, x, y)?;
    let right = related(&mut terms, How::AtMost, y, x)?;
    let goal = terms.make(Head::Eq, &[x, y])?;
    let first = two(alloc, 1, 1, 1, 0)?;
    let second = two(alloc, 1, j, 1, 0)?;
    let relation = Relation::Equal(x, y);
    let answer = is_accepted(
        alloc,
        &mut terms,
        (left, right),
        goal,
        relation,
        first,
        second,
    );
    Ok(answer.ok())
}

// X - Y + 1 and Y - X - 1 + 1: the sum is 1.
#[test]
fn nothing_between(rt: HostRuntime) -> Result<(), Fail> {
    let answer = closes_gap(rt.alloc(), How::Below, 1, 1)?;
    assert_eq!(rt; answer, Some(true));
    Ok(())
}

// X - Y and Y - X - 1 + 1: the sum is 0.
#[test]
fn a_sum_of_0(rt: HostRuntime) -> Result<(), Fail> {
    let answer = closes_gap(rt.alloc(), How::AtMost, 1, 1)?;
    assert_eq!(rt; answer, Some(false));
    Ok(())
}

// Y - X + 1 less Y - X - 1 + 1: the sum is 1, but an inequality is not turned round.
#[test]
fn a_negative_multiplier(rt: HostRuntime) -> Result<(), Fail> {
    let answer = closes_gap(rt.alloc(), How::Above, 1, -1)?;
    assert_eq!(rt; answer, Some(false));
    Ok(())
}

// X - Y and Y - X + 1 make 1, and so do Y - X and X - Y + 1.
#[test]
fn an_equality_by_two_lists(rt: HostRuntime) -> Result<(), Fail> {
    let answer = equals(rt.alloc(), 2)?;
    assert_eq!(rt; answer, Some(true));
    Ok(())
}

// The second list has X - Y and X - Y + 1, so X and Y are left.
#[test]
fn a_list_for_the_wrong_direction(rt: HostRuntime) -> Result<(), Fail> {
    let answer = equals(rt.alloc(), 1)?;
    assert_eq!(rt; answer, Some(false));
    Ok(())
}
