// The terms of a FOR.

ghost use Rattle.std.specs.Prelude.{◌≡◌, ◌<◌, length, IfOk, IsTrue, option_map};
ghost use Rattle.spv_logic.specs.declared.types.Sort.TheVariants as sort;
ghost use Rattle.spv_logic.specs.Substitution.{is_variable, substitute};
ghost use Rattle.spv_term.specs.Arena.{Extends, sort_at, tree};
ghost use Rattle.spv_term.specs.substitution.Images.{ArePairs, head_at};
ghost use Rattle.spv_program.specs.Calls.{replacing};
ghost use Rattle.spv_assign.specs.Conditions.{pairs_of};
ghost use Rattle.spv_meaning.specs.Before.{standing_for};
ghost use Rattle.spv_assign.specs.creation_trace.Events.{Answers};
ghost use Rattle.spv_assign.specs.creation_trace.StatementEvents.{one_if_there, several};
ghost use Rattle.spv_flow_parts.specs.Walks.{IsThere, MakesTerm};
ghost use Rattle.spv_flow_parts.specs.for_loops.Counting.{AreEnds, IsCounter, counter_terms, end_terms, known_in, number_head};

use spv_assign::creation_trace::GenFault;
use spv_assign::limited_steps::{limited, made, next_value, past_end, within_end};
use spv_logic::names::Symbol;
use spv_logic::{Head, Sort};
use spv_program::Direction;
use spv_term::substitution::substitute;
use spv_term::{TermId, Terms};
use std::alloc::Global;

/// The variable that counts, and its value in the next turn.
#[derive(Clone, Copy, Debug)]
pub struct CounterTerms {
    /// The variable.
    pub variable: TermId,
    /// Its value in the next turn.
    pub next: TermId,
}

/// Whether the variable is within the end, and whether it is past it.
#[derive(Clone, Copy, Debug)]
pub(crate) struct EndTerms {
    pub(crate) within: TermId,
    pub(crate) past: TermId,
}

/// The terms of a variable of numbers and of its value in the next turn.
pub fn counter(terms: &mut Terms, x: Symbol, direction: Direction) -> Result<CounterTerms, GenFault>
    ensures counter { IfOk result (λ c. IsCounter terms.new c direction (number_head x)) }
    ensures grows { Extends terms.old terms.new }
    ensures walk { Answers result (several (counter_terms direction (number_head x))) terms.old terms.new }
{
    let variable = made(terms, Head::Var(x, Sort::Int, 0), &[])?;
    let next = next_value(terms, direction, variable)?;
    Ok(CounterTerms { variable, next })
}

/// A term with the second terms of pairs in the place of the first ones.
pub(crate) fn put_into(
    alloc: Global,
    terms: &mut Terms,
    pairs: &[(TermId, TermId)],
    t: TermId,
) -> Result<TermId, GenFault>
    requires t { t.0 < length terms.old.nodes }
    requires pairs { ArePairs terms.old pairs.now }
    ensures made { MakesTerm result (substitute (replacing (pairs_of terms.old pairs.now)) (tree terms.old t)) terms.old terms.new }
    ensures sort { IfOk result (λ u. sort_at terms.new u ≡ sort_at terms.old t) }
{
    let made = substitute(terms, alloc, t, pairs);
    limited(terms, made)
}

/// The same of a term that may be there.
pub(crate) fn put_if_there(
    alloc: Global,
    terms: &mut Terms,
    pairs: &[(TermId, TermId)],
    note: Option<TermId>,
) -> Result<Option<TermId>, GenFault>
    requires note { IsThere terms.old note }
    requires pairs { ArePairs terms.old pairs.now }
    ensures there { IfOk result (IsThere terms.new) }
    ensures term { IfOk result (λ u. option_map (tree terms.new) u ≡ known_in (pairs_of terms.old pairs.now) (option_map (tree terms.old) note)) }
    ensures grows { Extends terms.old terms.new }
    ensures walk { Answers result (one_if_there (known_in (pairs_of terms.old pairs.now) (option_map (tree terms.old) note))) terms.old terms.new }
{
    match note {
        None => Ok(None),
        Some(t) => Ok(Some(put_into(alloc, terms, pairs, t)?)),
    }
}

/// Whether the variable of a FOR, as it stands in the loop, is within the end, and whether it is past it.
pub(crate) fn ends(
    alloc: Global,
    terms: &mut Terms,
    pairs: &[(TermId, TermId)],
    direction: Direction,
    variable: TermId,
    end: TermId,
) -> Result<EndTerms, GenFault>
    requires variable { variable.0 < length terms.old.nodes }
    requires number { sort_at terms.old variable ≡ sort.Int }
    requires end { end.0 < length terms.old.nodes }
    requires end_sort { sort_at terms.old end ≡ sort.Int }
    requires pairs { ArePairs terms.old pairs.now }
    ensures ends { IfOk result (λ e. AreEnds terms.new e direction (substitute (replacing (pairs_of terms.old pairs.now)) (tree terms.old variable)) (tree terms.old end)) }
    ensures grows { Extends terms.old terms.new }
    ensures walk { Answers result (several (end_terms direction (substitute (replacing (pairs_of terms.old pairs.now)) (tree terms.old variable)) (tree terms.old end))) terms.old terms.new }
{
    let now = put_into(alloc, terms, pairs, variable)?;
    let within = within_end(terms, direction, now, end)?;
    let past = past_end(terms, direction, now, end)?;
    Ok(EndTerms { within, past })
}
