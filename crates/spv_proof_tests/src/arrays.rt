//! A proof about an array that is changed twice, and near misses of it.

ghost use Rattle.std.specs.Prelude.{◌≡◌, ◌<◌, length, true, false, IfOk, Some, None, [], ◌∷◌};
ghost use Rattle.spv_logic.specs.declared.types.Sort.TheVariants as sort;
ghost use Rattle.spv_logic.specs.declared.types.Shape.TheVariants as shape;
ghost use Rattle.spv_atoms.specs.declared.proofs.Stated.TheVariants.{Is};
ghost use Rattle.spv_term.specs.Arena.{Extends, sort_at};
ghost use Rattle.spv_proof_steps.specs.Candidates.{IsBool};

use crate::checks::checked;
use spv_atoms::{ProofNode, Split, Stated, Step};
use spv_logic::list::List;
use spv_logic::names::Symbol;
use spv_logic::{Shape, TypeId};
use spv_term::{Head, Shapes, Sort, TermFault, TermId, Terms};
use std::alloc::{AllocError, Global};
use std::test::Fail;

// The type of arrays of numbers.
fn shapes(alloc: Global) -> Result<Shapes, AllocError>
    ensures { IfOk result (λ s. s ≡ shape.Array sort.Int ∷ []) }
{
    let mut list = Vec::new(alloc);
    list.push(Shape::Array(Sort::Int))?;
    Ok(Shapes::from_vec(list))
}

// An array, two indices, 1 and 2.
#[derive(Clone, Copy)]
struct Parts {
    array: TermId,
    i: TermId,
    j: TermId,
    one: TermId,
    two: TermId,
}

// Two indices.
#[tactic(auto, using(spv_term::proofs::ArenaLemmas::growth))]
fn indices(terms: &mut Terms) -> Result<(TermId, TermId), TermFault>
    ensures i { IfOk result (λ r. r.0.0 < length terms.new.nodes) }
    ensures j { IfOk result (λ r. r.1.0 < length terms.new.nodes) }
    ensures i_sort { IfOk result (λ r. sort_at terms.new r.0 ≡ sort.Int) }
    ensures j_sort { IfOk result (λ r. sort_at terms.new r.1 ≡ sort.Int) }
    ensures grows { Extends terms.old terms.new }
{
    let i = terms.make(Head::Var(Symbol(1), Sort::Int, 0), &[])?;
    let j = terms.make(Head::Var(Symbol(2), Sort::Int, 0), &[])?;
    Ok((i, j))
}

// 1 and 2.
#[tactic(auto, using(spv_term::proofs::ArenaLemmas::growth))]
fn numbers(terms: &mut Terms) -> Result<(TermId, TermId), TermFault>
    ensures one { IfOk result (λ r. r.0.0 < length terms.new.nodes) }
    ensures two { IfOk result (λ r. r.1.0 < length terms.new.nodes) }
    ensures one_sort { IfOk result (λ r. sort_at terms.new r.0 ≡ sort.Int) }
    ensures two_sort { IfOk result (λ r. sort_at terms.new r.1 ≡ sort.Int) }
    ensures grows { Extends terms.old terms.new }
{
    let one = terms.make(Head::Num(1), &[])?;
    let two = terms.make(Head::Num(2), &[])?;
    Ok((one, two))
}

// An array and two indices.
#[tactic(auto, using(spv_term::proofs::ArenaLemmas::growth))]
fn variables(terms: &mut Terms) -> Result<(TermId, TermId, TermId), TermFault>
    requires { terms.old.shapes ≡ shape.Array sort.Int ∷ [] }
    ensures array { IfOk result (λ r. r.0.0 < length terms.new.nodes) }
    ensures i { IfOk result (λ r. r.1.0 < length terms.new.nodes) }
    ensures j { IfOk result (λ r. r.2.0 < length terms.new.nodes) }
    ensures array_sort { IfOk result (λ r. sort_at terms.new r.0 ≡ sort.Whole (record { 0 = 0 })) }
    ensures i_sort { IfOk result (λ r. sort_at terms.new r.1 ≡ sort.Int) }
    ensures j_sort { IfOk result (λ r. sort_at terms.new r.2 ≡ sort.Int) }
    ensures grows { Extends terms.old terms.new }
{
    let array = terms.make(Head::Var(Symbol(0), Sort::Whole(TypeId(0)), 0), &[])?;
    let (i, j) = indices(terms)?;
    Ok((array, i, j))
}

#[tactic(auto, using(spv_term::proofs::ArenaLemmas::growth))]
fn new_parts(terms: &mut Terms) -> Result<Parts, TermFault>
    requires { terms.old.shapes ≡ shape.Array sort.Int ∷ [] }
    ensures array { IfOk result (λ p. p.array.0 < length terms.new.nodes) }
    ensures i { IfOk result (λ p. p.i.0 < length terms.new.nodes) }
    ensures j { IfOk result (λ p. p.j.0 < length terms.new.nodes) }
    ensures one { IfOk result (λ p. p.one.0 < length terms.new.nodes) }
    ensures two { IfOk result (λ p. p.two.0 < length terms.new.nodes) }
    ensures array_sort { IfOk result (λ p. sort_at terms.new p.array ≡ sort.Whole (record { 0 = 0 })) }
    ensures i_sort { IfOk result (λ p. sort_at terms.new p.i ≡ sort.Int) }
    ensures j_sort { IfOk result (λ p. sort_at terms.new p.j ≡ sort.Int) }
    ensures one_sort { IfOk result (λ p. sort_at terms.new p.one ≡ sort.Int) }
    ensures two_sort { IfOk result (λ p. sort_at terms.new p.two ≡ sort.Int) }
    ensures grows { Extends terms.old terms.new }
{
    let (array, i, j) = variables(terms)?;
    let (one, two) = numbers(terms)?;
    Ok(Parts {
        array,
        i,
        j,
        one,
        two,
    })
}

// An array of numbers with a value at an index.
fn stored(terms: &mut Terms, array: TermId, i: TermId, value: TermId) -> Result<TermId, TermFault>
    requires shapes { terms.old.shapes ≡ shape.Array sort.Int ∷ [] }
    requires array { array.0 < length terms.old.nodes }
    requires i { i.0 < length terms.old.nodes }
    requires value { value.0 < length terms.old.nodes }
    requires array_sort { sort_at terms.old array ≡ sort.Whole (record { 0 = 0 }) }
    requires i_sort { sort_at terms.old i ≡ sort.Int }
    requires value_sort { sort_at terms.old value ≡ sort.Int }
    ensures in_range { IfOk result (λ t. t.0 < length terms.new.nodes) }
    ensures sort { IfOk result (λ t. sort_at terms.new t ≡ sort.Whole (record { 0 = 0 })) }
    ensures grows { Extends terms.old terms.new }
{
    terms.make(Head::Store, &[array, i, value])
}

// What an array of numbers has at an index.
fn selected(terms: &mut Terms, array: TermId, i: TermId) -> Result<TermId, TermFault>
    requires shapes { terms.old.shapes ≡ shape.Array sort.Int ∷ [] }
    requires array { array.0 < length terms.old.nodes }
    requires i { i.0 < length terms.old.nodes }
    requires array_sort { sort_at terms.old array ≡ sort.Whole (record { 0 = 0 }) }
    requires i_sort { sort_at terms.old i ≡ sort.Int }
    ensures in_range { IfOk result (λ t. t.0 < length terms.new.nodes) }
    ensures sort { IfOk result (λ t. sort_at terms.new t ≡ sort.Int) }
    ensures grows { Extends terms.old terms.new }
{
    terms.make(Head::Select, &[array, i])
}

// That two numbers are equal.
fn same(terms: &mut Terms, s: TermId, t: TermId) -> Result<TermId, TermFault>
    requires s { s.0 < length terms.old.nodes }
    requires t { t.0 < length terms.old.nodes }
    requires s_sort { sort_at terms.old s ≡ sort.Int }
    requires t_sort { sort_at terms.old t ≡ sort.Int }
    ensures in_range { IfOk result (λ r. r.0 < length terms.new.nodes) }
    ensures sort { IfOk result (λ r. IsBool terms.new r) }
    ensures grows { Extends terms.old terms.new }
{
    terms.make(Head::Eq, &[s, t])
}

// (IMPLIES (NOT f) g), with (NOT f).
#[tactic(auto, using(spv_term::proofs::ArenaLemmas::growth))]
fn unless(terms: &mut Terms, f: TermId, g: TermId) -> Result<(TermId, TermId), TermFault>
    requires f { f.0 < length terms.old.nodes }
    requires g { g.0 < length terms.old.nodes }
    requires f_sort { IsBool terms.old f }
    requires g_sort { IsBool terms.old g }
    ensures goal { IfOk result (λ r. r.0.0 < length terms.new.nodes) }
    ensures goal_sort { IfOk result (λ r. IsBool terms.new r.0) }
    ensures not { IfOk result (λ r. r.1.0 < length terms.new.nodes) }
    ensures grows { Extends terms.old terms.new }
{
    let not = terms.make(Head::Not, &[f])?;
    let goal = terms.make(Head::Implies, &[not, g])?;
    Ok((goal, not))
}

// The array with 1 at i, and that with 2 at j.
#[tactic(auto, using(spv_term::proofs::ArenaLemmas::growth))]
fn changes(terms: &mut Terms, p: Parts) -> Result<(TermId, TermId), TermFault>
    requires shapes { terms.old.shapes ≡ shape.Array sort.Int ∷ [] }
    requires array { p.array.0 < length terms.old.nodes }
    requires i { p.i.0 < length terms.old.nodes }
    requires j { p.j.0 < length terms.old.nodes }
    requires one { p.one.0 < length terms.old.nodes }
    requires two { p.two.0 < length terms.old.nodes }
    requires array_sort { sort_at terms.old p.array ≡ sort.Whole (record { 0 = 0 }) }
    requires i_sort { sort_at terms.old p.i ≡ sort.Int }
    requires j_sort { sort_at terms.old p.j ≡ sort.Int }
    requires one_sort { sort_at terms.old p.one ≡ sort.Int }
    requires two_sort { sort_at terms.old p.two ≡ sort.Int }
    ensures once { IfOk result (λ r. r.0.0 < length terms.new.nodes) }
    ensures twice { IfOk result (λ r. r.1.0 < length terms.new.nodes) }
    ensures once_sort { IfOk result (λ r. sort_at terms.new r.0 ≡ sort.Whole (record { 0 = 0 })) }
    ensures twice_sort { IfOk result (λ r. sort_at terms.new r.1 ≡ sort.Whole (record { 0 = 0 })) }
    ensures grows { Extends terms.old terms.new }
{
    let once = stored(terms, p.array, p.i, p.one)?;
    let twice = stored(terms, once, p.j, p.two)?;
    Ok((once, twice))
}

// The formulas that the proof names.
#[derive(Clone, Copy)]
struct Named {
    i: TermId,
    once: TermId,
    twice: TermId,
    apart: TermId,
    read: TermId,
    turned: TermId,
    kept: TermId,
    written: TermId,
    goal: TermId,
}

// The first node: i is not j, the element is not 1, what the second change leaves and what the first one writes; then the cases of j = i.
fn opening(alloc: Global, n: Named, second: u8, first: u8) -> Result<ProofNode, AllocError>
    ensures { IfOk result (λ v. v ≡ record {
      steps = Step.Given 0 ∷ Step.Eval (Is n.apart true) (1 ∷ []) ∷ Step.Eval (Is n.read false) (1 ∷ []) ∷ Step.Schema second (n.twice ∷ n.i ∷ []) None
          ∷ Step.Schema first (n.once ∷ n.i ∷ []) None ∷ Step.Refl n.i ∷ Step.Eval (Is n.written true) (5 ∷ 6 ∷ []) ∷ [];
      split = Some (record { atom = n.turned; parts = 1 ∷ 2 ∷ 3 ∷ [] });
    }) }
{
    let mut steps = Vec::new(alloc);
    steps.push(Step::Given(0))?;
    steps.push(evaluated(alloc, n.apart, true, &[1])?)?;
    steps.push(evaluated(alloc, n.read, false, &[1])?)?;
    steps.push(about(alloc, second, n.twice, n.i)?)?;
    steps.push(about(alloc, first, n.once, n.i)?)?;
    steps.push(Step::Refl(n.i))?;
    steps.push(evaluated(alloc, n.written, true, &[5, 6])?)?;
    Ok(ProofNode {
        steps: List::from_vec(steps),
        split: Some(Split {
            atom: n.turned,
            parts: List::from_vec(Vec::from_slice(alloc, &[1, 2, 3])?),
        }),
    })
}

// A truth value that cited facts give.
fn evaluated(alloc: Global, t: TermId, value: bool, cited: &[u32]) -> Result<Step, AllocError>
    ensures { IfOk result (λ s. s ≡ Step.Eval (Is t value) cited.now) }
{
    let cited = List::from_vec(Vec::from_slice(alloc, cited)?);
    Ok(Step::Eval(Stated::Is(t, value), cited))
}

// The fact of this kind about two terms.
fn about(alloc: Global, kind: u8, a: TermId, k: TermId) -> Result<Step, AllocError>
    ensures { IfOk result (λ s. s ≡ Step.Schema kind (a ∷ k ∷ []) None) }
{
    let terms = List::from_vec(Vec::from_slice(alloc, &[a, k])?);
    Ok(Step::Schema(kind, terms, None))
}

// The case of j = i.
fn same_index(alloc: Global) -> Result<ProofNode, AllocError>
    ensures { IfOk result (λ v. v ≡ record { steps = Step.Symm 8 ∷ Step.Contra 9 (Some 2) ∷ []; split = None }) }
{
    let mut steps = Vec::new(alloc);
    steps.push(Step::Symm(8))?;
    steps.push(Step::Contra(9, Some(2)))?;
    Ok(ProofNode {
        steps: List::from_vec(steps),
        split: None,
    })
}

// Each other case.
fn other_index(alloc: Global, n: Named) -> Result<ProofNode, AllocError>
    ensures { IfOk result (λ v. v ≡ record {
      steps = Step.Eval (Is n.kept true) (4 ∷ 8 ∷ []) ∷ Step.Trans 9 7 ∷ Step.Contra 10 (Some 3) ∷ [];
      split = None;
    }) }
{
    let mut steps = Vec::new(alloc);
    steps.push(evaluated(alloc, n.kept, true, &[4, 8])?)?;
    steps.push(Step::Trans(9, 7))?;
    steps.push(Step::Contra(10, Some(3)))?;
    Ok(ProofNode {
        steps: List::from_vec(steps),
        split: None,
    })
}

// What the array has at i, before the second change and behind it.
#[tactic(auto, using(spv_term::proofs::ArenaLemmas::growth))]
fn elements(
    terms: &mut Terms,
    i: TermId,
    once: TermId,
    twice: TermId,
) -> Result<(TermId, TermId), TermFault>
    requires shapes { terms.old.shapes ≡ shape.Array sort.Int ∷ [] }
    requires i { i.0 < length terms.old.nodes }
    requires once { once.0 < length terms.old.nodes }
    requires twice { twice.0 < length terms.old.nodes }
    requires i_sort { sort_at terms.old i ≡ sort.Int }
    requires once_sort { sort_at terms.old once ≡ sort.Whole (record { 0 = 0 }) }
    requires twice_sort { sort_at terms.old twice ≡ sort.Whole (record { 0 = 0 }) }
    ensures at_once { IfOk result (λ r. r.0.0 < length terms.new.nodes) }
    ensures at_twice { IfOk result (λ r. r.1.0 < length terms.new.nodes) }
    ensures once_number { IfOk result (λ r. sort_at terms.new r.0 ≡ sort.Int) }
    ensures twice_number { IfOk result (λ r. sort_at terms.new r.1 ≡ sort.Int) }
    ensures grows { Extends terms.old terms.new }
{
    let at_once = selected(terms, once, i)?;
    let at_twice = selected(terms, twice, i)?;
    Ok((at_once, at_twice))
}

// The parts with the arrays.
#[derive(Clone, Copy)]
struct Setting {
    i: TermId,
    j: TermId,
    one: TermId,
    once: TermId,
    twice: TermId,
}

#[tactic(auto, using(spv_term::proofs::ArenaLemmas::growth))]
fn new_setting(terms: &mut Terms) -> Result<Setting, TermFault>
    requires { terms.old.shapes ≡ shape.Array sort.Int ∷ [] }
    ensures i { IfOk result (λ s. s.i.0 < length terms.new.nodes) }
    ensures j { IfOk result (λ s. s.j.0 < length terms.new.nodes) }
    ensures one { IfOk result (λ s. s.one.0 < length terms.new.nodes) }
    ensures once { IfOk result (λ s. s.once.0 < length terms.new.nodes) }
    ensures twice { IfOk result (λ s. s.twice.0 < length terms.new.nodes) }
    ensures i_sort { IfOk result (λ s. sort_at terms.new s.i ≡ sort.Int) }
    ensures j_sort { IfOk result (λ s. sort_at terms.new s.j ≡ sort.Int) }
    ensures one_sort { IfOk result (λ s. sort_at terms.new s.one ≡ sort.Int) }
    ensures once_sort { IfOk result (λ s. sort_at terms.new s.once ≡ sort.Whole (record { 0 = 0 })) }
    ensures twice_sort { IfOk result (λ s. sort_at terms.new s.twice ≡ sort.Whole (record { 0 = 0 })) }
    ensures grows { Extends terms.old terms.new }
{
    let p = new_parts(terms)?;
    let (once, twice) = changes(terms, p)?;
    Ok(Setting {
        i: p.i,
        j: p.j,
        one: p.one,
        once,
        twice,
    })
}

// (= i j) and (= j i).
#[tactic(auto, using(spv_term::proofs::ArenaLemmas::growth))]
fn both_ways(terms: &mut Terms, i: TermId, j: TermId) -> Result<(TermId, TermId), TermFault>
    requires i { i.0 < length terms.old.nodes }
    requires j { j.0 < length terms.old.nodes }
    requires i_sort { sort_at terms.old i ≡ sort.Int }
    requires j_sort { sort_at terms.old j ≡ sort.Int }
    ensures equal { IfOk result (λ r. r.0.0 < length terms.new.nodes) }
    ensures turned { IfOk result (λ r. r.1.0 < length terms.new.nodes) }
    ensures equal_sort { IfOk result (λ r. IsBool terms.new r.0) }
    ensures grows { Extends terms.old terms.new }
{
    let equal = same(terms, i, j)?;
    let turned = same(terms, j, i)?;
    Ok((equal, turned))
}

// That the element is what it was before the second change, and that it was 1 then.
#[tactic(auto, using(spv_term::proofs::ArenaLemmas::growth))]
fn kept_and_written(
    terms: &mut Terms,
    at_once: TermId,
    at_twice: TermId,
    one: TermId,
) -> Result<(TermId, TermId), TermFault>
    requires at_once { at_once.0 < length terms.old.nodes }
    requires at_twice { at_twice.0 < length terms.old.nodes }
    requires one { one.0 < length terms.old.nodes }
    requires at_once_sort { sort_at terms.old at_once ≡ sort.Int }
    requires at_twice_sort { sort_at terms.old at_twice ≡ sort.Int }
    requires one_sort { sort_at terms.old one ≡ sort.Int }
    ensures kept { IfOk result (λ r. r.0.0 < length terms.new.nodes) }
    ensures written { IfOk result (λ r. r.1.0 < length terms.new.nodes) }
    ensures grows { Extends terms.old terms.new }
{
    let kept = same(terms, at_twice, at_once)?;
    let written = same(terms, at_once, one)?;
    Ok((kept, written))
}

// These two, and that the element is 1 now.
#[tactic(auto, using(spv_term::proofs::ArenaLemmas::growth))]
fn readings(
    terms: &mut Terms,
    at_once: TermId,
    at_twice: TermId,
    one: TermId,
) -> Result<(TermId, TermId, TermId), TermFault>
    requires at_once { at_once.0 < length terms.old.nodes }
    requires at_twice { at_twice.0 < length terms.old.nodes }
    requires one { one.0 < length terms.old.nodes }
    requires at_once_sort { sort_at terms.old at_once ≡ sort.Int }
    requires at_twice_sort { sort_at terms.old at_twice ≡ sort.Int }
    requires one_sort { sort_at terms.old one ≡ sort.Int }
    ensures kept { IfOk result (λ r. r.0.0 < length terms.new.nodes) }
    ensures written { IfOk result (λ r. r.1.0 < length terms.new.nodes) }
    ensures read { IfOk result (λ r. r.2.0 < length terms.new.nodes) }
    ensures read_sort { IfOk result (λ r. IsBool terms.new r.2) }
    ensures grows { Extends terms.old terms.new }
{
    let (kept, written) = kept_and_written(terms, at_once, at_twice, one)?;
    let read = same(terms, at_twice, one)?;
    Ok((kept, written, read))
}

#[tactic(auto, using(spv_term::proofs::ArenaLemmas::growth))]
fn about_elements(terms: &mut Terms, s: Setting) -> Result<(TermId, TermId, TermId), TermFault>
    requires shapes { terms.old.shapes ≡ shape.Array sort.Int ∷ [] }
    requires i { s.i.0 < length terms.old.nodes }
    requires one { s.one.0 < length terms.old.nodes }
    requires once { s.once.0 < length terms.old.nodes }
    requires twice { s.twice.0 < length terms.old.nodes }
    requires i_sort { sort_at terms.old s.i ≡ sort.Int }
    requires one_sort { sort_at terms.old s.one ≡ sort.Int }
    requires once_sort { sort_at terms.old s.once ≡ sort.Whole (record { 0 = 0 }) }
    requires twice_sort { sort_at terms.old s.twice ≡ sort.Whole (record { 0 = 0 }) }
    ensures kept { IfOk result (λ r. r.0.0 < length terms.new.nodes) }
    ensures written { IfOk result (λ r. r.1.0 < length terms.new.nodes) }
    ensures read { IfOk result (λ r. r.2.0 < length terms.new.nodes) }
    ensures read_sort { IfOk result (λ r. IsBool terms.new r.2) }
    ensures grows { Extends terms.old terms.new }
{
    let (at_once, at_twice) = elements(terms, s.i, s.once, s.twice)?;
    readings(terms, at_once, at_twice, s.one)
}

// The formulas of the proof, in an arena with the type of arrays of numbers.
#[tactic(auto, using(spv_term::proofs::ArenaLemmas::growth))]
fn name_formulas(terms: &mut Terms) -> Result<Named, TermFault>
    requires { terms.old.shapes ≡ shape.Array sort.Int ∷ [] }
    ensures i { IfOk result (λ n. n.i.0 < length terms.new.nodes) }
    ensures once { IfOk result (λ n. n.once.0 < length terms.new.nodes) }
    ensures twice { IfOk result (λ n. n.twice.0 < length terms.new.nodes) }
    ensures apart { IfOk result (λ n. n.apart.0 < length terms.new.nodes) }
    ensures read { IfOk result (λ n. n.read.0 < length terms.new.nodes) }
    ensures turned { IfOk result (λ n. n.turned.0 < length terms.new.nodes) }
    ensures kept { IfOk result (λ n. n.kept.0 < length terms.new.nodes) }
    ensures written { IfOk result (λ n. n.written.0 < length terms.new.nodes) }
    ensures goal { IfOk result (λ n. n.goal.0 < length terms.new.nodes) }
    ensures goal_sort { IfOk result (λ n. IsBool terms.new n.goal) }
{
    let s = new_setting(terms)?;
    let (kept, written, read) = about_elements(terms, s)?;
    let (equal, turned) = both_ways(terms, s.i, s.j)?;
    let (goal, apart) = unless(terms, equal, read)?;
    Ok(Named {
        i: s.i,
        once: s.once,
        twice: s.twice,
        apart,
        read,
        turned,
        kept,
        written,
        goal,
    })
}

// The proof, with these kinds for what the second change leaves and what the first one writes.
fn proof(alloc: Global, n: Named, second: u8, first: u8) -> Result<Vec<ProofNode>, AllocError>
    ensures { IfOk result (λ v. v.items ≡ record {
      steps = Step.Given 0 ∷ Step.Eval (Is n.apart true) (1 ∷ []) ∷ Step.Eval (Is n.read false) (1 ∷ []) ∷ Step.Schema second (n.twice ∷ n.i ∷ []) None
          ∷ Step.Schema first (n.once ∷ n.i ∷ []) None ∷ Step.Refl n.i ∷ Step.Eval (Is n.written true) (5 ∷ 6 ∷ []) ∷ [];
      split = Some (record { atom = n.turned; parts = 1 ∷ 2 ∷ 3 ∷ [] });
    }
        ∷ record { steps = Step.Symm 8 ∷ Step.Contra 9 (Some 2) ∷ []; split = None }
        ∷ record { steps = Step.Eval (Is n.kept true) (4 ∷ 8 ∷ []) ∷ Step.Trans 9 7 ∷ Step.Contra 10 (Some 3) ∷ []; split = None }
        ∷ record { steps = Step.Eval (Is n.kept true) (4 ∷ 8 ∷ []) ∷ Step.Trans 9 7 ∷ Step.Contra 10 (Some 3) ∷ []; split = None } ∷ []) }
{
    let mut nodes = Vec::new(alloc);
    nodes.push(opening(alloc, n, second, first)?)?;
    nodes.push(same_index(alloc)?)?;
    nodes.push(other_index(alloc, n)?)?;
    nodes.push(other_index(alloc, n)?)?;
    Ok(nodes)
}

// What the check of that proof comes to.
fn changed_twice(alloc: Global, second: u8, first: u8) -> Result<Option<bool>, Fail> {
    let mut terms = Terms::new(alloc, shapes(alloc)?, List::new(alloc), 40);
    let n = name_formulas(&mut terms)?;
    let nodes = proof(alloc, n, second, first)?;
    Ok(checked(alloc, &mut terms, n.goal, nodes).ok())
}

#[test]
fn another_index_stays(rt: HostRuntime) -> Result<(), Fail> {
    assert_eq!(rt; changed_twice(rt.alloc(), 2, 1)?, Some(true));
    Ok(())
}

#[test]
fn kinds_differ(rt: HostRuntime) -> Result<(), Fail> {
    assert_eq!(rt; changed_twice(rt.alloc(), 1, 2)?, Some(false));
    Ok(())
}
