// Terms of the operators that the rules of statements write.

ghost use Rattle.std.specs.Prelude.{◌≡◌, ◌<◌, ◌∷◌, [], length, IfOk, IsSome, IsTrue, Some, pos};
ghost use Rattle.spv_logic.specs.Sorts.{head_in_range, numeral_fits, result_sort};
ghost use Rattle.spv_term.specs.Arena.{Extends, sort_at, tree};
ghost use Rattle.spv_program.specs.Terms as plain;
ghost use Rattle.spv_meaning.specs.Before as before;
ghost use Rattle.spv_assign.specs.creation_trace.Events.{Answers};
ghost use Rattle.spv_assign.specs.creation_trace.StatementEvents.{one};
ghost use Rattle.spv_assign.specs.limited_steps.Makes.{IsTerm};

use crate::creation_trace::GenFault;
use crate::limited_steps::making::made;
use spv_logic::{Head, Sort};
use spv_program::Direction;
use spv_term::{TermId, Terms};

/// A term with NOT in front.
pub fn negated(terms: &mut Terms, t: TermId) -> Result<TermId, GenFault>
    requires t { t.0 < length terms.old.nodes }
    requires sort { sort_at terms.old t ≡ Sort.Bool }
    ensures term { IfOk result (λ u. IsTerm terms.new u (before.negated (tree terms.old t))) }
    ensures sort { IfOk result (λ u. sort_at terms.new u ≡ Sort.Bool) }
    ensures grows { Extends terms.old terms.new }
    ensures walk { Answers result (one (before.negated (tree terms.old t))) terms.old terms.new }
{
    made(terms, Head::Not, &[t])
}

/// A head over two terms that fit it.
pub fn binary(terms: &mut Terms, head: Head, s: TermId, t: TermId) -> Result<TermId, GenFault>
    requires s { s.0 < length terms.old.nodes }
    requires t { t.0 < length terms.old.nodes }
    requires sorts { IsSome (result_sort terms.old.shapes terms.old.decls head (sort_at terms.old s ∷ sort_at terms.old t ∷ [])) }
    requires types { IsTrue (head_in_range terms.old.shapes head) }
    requires numeral { IsTrue (numeral_fits head) }
    ensures term { IfOk result (λ u. IsTerm terms.new u (plain.binary head (tree terms.old s) (tree terms.old t))) }
    ensures sort { IfOk result (λ u. result_sort terms.old.shapes terms.old.decls head (sort_at terms.old s ∷ sort_at terms.old t ∷ []) ≡ Some (sort_at terms.new u)) }
    ensures grows { Extends terms.old terms.new }
    ensures walk { Answers result (one (plain.binary head (tree terms.old s) (tree terms.old t))) terms.old terms.new }
{
    made(terms, head, &[s, t])
}

/// A numeral.
pub fn numeral(terms: &mut Terms, z: &i64) -> Result<TermId, GenFault>
    ensures term { IfOk result (λ u. IsTerm terms.new u (plain.numeral z.now)) }
    ensures sort { IfOk result (λ u. sort_at terms.new u ≡ Sort.Int) }
    ensures grows { Extends terms.old terms.new }
    ensures walk { Answers result (one (plain.numeral z.now)) terms.old terms.new }
{
    made(terms, Head::Num(*z as i128), &[])
}

/// A head over a number and a numeral.
pub fn over_numeral(terms: &mut Terms, head: Head, v: TermId, z: &i64) -> Result<TermId, GenFault>
    requires v { v.0 < length terms.old.nodes }
    requires sort { sort_at terms.old v ≡ Sort.Int }
    requires sorts { IsSome (result_sort terms.old.shapes terms.old.decls head (Sort.Int ∷ Sort.Int ∷ [])) }
    requires types { IsTrue (head_in_range terms.old.shapes head) }
    requires numeral { IsTrue (numeral_fits head) }
    ensures term { IfOk result (λ u. IsTerm terms.new u (plain.binary head (tree terms.old v) (plain.numeral z.now))) }
    ensures sort { IfOk result (λ u. result_sort terms.old.shapes terms.old.decls head (Sort.Int ∷ Sort.Int ∷ []) ≡ Some (sort_at terms.new u)) }
    ensures grows { Extends terms.old terms.new }
    ensures walk { Answers result (one (plain.binary head (tree terms.old v) (plain.numeral z.now))) terms.old terms.new }
{
    let number = numeral(terms, z)?;
    binary(terms, head, v, number)
}

/// What the variable of a FOR is in the next turn.
pub fn next_value(terms: &mut Terms, direction: Direction, v: TermId) -> Result<TermId, GenFault>
    requires v { v.0 < length terms.old.nodes }
    requires sort { sort_at terms.old v ≡ Sort.Int }
    ensures term { IfOk result (λ u. IsTerm terms.new u (before.next_term direction (tree terms.old v))) }
    ensures sort { IfOk result (λ u. sort_at terms.new u ≡ Sort.Int) }
    ensures grows { Extends terms.old terms.new }
    ensures walk { Answers result (one (before.next_term direction (tree terms.old v))) terms.old terms.new }
{
    match direction {
        Direction::Up => over_numeral(terms, Head::Add, v, &1),
        Direction::Down => over_numeral(terms, Head::Sub, v, &1),
    }
}

/// Whether the variable of a FOR is within the end.
pub fn within_end(
    terms: &mut Terms,
    direction: Direction,
    v: TermId,
    end: TermId,
) -> Result<TermId, GenFault>
    requires v { v.0 < length terms.old.nodes }
    requires end { end.0 < length terms.old.nodes }
    requires sort { sort_at terms.old v ≡ Sort.Int }
    requires end_sort { sort_at terms.old end ≡ Sort.Int }
    ensures term { IfOk result (λ u. IsTerm terms.new u (before.within_term direction (tree terms.old v) (tree terms.old end))) }
    ensures grows { Extends terms.old terms.new }
    ensures walk { Answers result (one (before.within_term direction (tree terms.old v) (tree terms.old end))) terms.old terms.new }
{
    match direction {
        Direction::Up => binary(terms, Head::Le, v, end),
        Direction::Down => binary(terms, Head::Le, end, v),
    }
}

/// Whether the variable of a FOR is past the end.
pub fn past_end(
    terms: &mut Terms,
    direction: Direction,
    v: TermId,
    end: TermId,
) -> Result<TermId, GenFault>
    requires v { v.0 < length terms.old.nodes }
    requires end { end.0 < length terms.old.nodes }
    requires sort { sort_at terms.old v ≡ Sort.Int }
    requires end_sort { sort_at terms.old end ≡ Sort.Int }
    ensures term { IfOk result (λ u. IsTerm terms.new u (before.past_term direction (tree terms.old v) (tree terms.old end))) }
    ensures grows { Extends terms.old terms.new }
    ensures walk { Answers result (one (before.past_term direction (tree terms.old v) (tree terms.old end))) terms.old terms.new }
{
    match direction {
        Direction::Up => binary(terms, Head::Lt, end, v),
        Direction::Down => binary(terms, Head::Lt, v, end),
    }
}
