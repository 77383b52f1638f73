// Conditions before a statement that goes one of two ways.

ghost use Rattle.std.specs.Prelude.{◌≡◌, ◌<◌, length};
ghost use Rattle.spv_term.specs.Arena.{sort_at, tree};
ghost use Rattle.spv_assign.specs.Conditions.{AreIn, conditions_of};
ghost use Rattle.spv_program.specs.ExpressionTerms as plain;
ghost use Rattle.spv_meaning.specs.Before as before;
ghost use Rattle.spv_assign.specs.creation_trace.StatementEvents.{in_order};
ghost use Rattle.spv_flow_parts.specs.Walks.{ComesTo};
ghost use Rattle.spv_flow.specs.statement_rules.Rules.{IsValueOf, tested_events, tested_made, ways_events, ways_made};

use spv_assign::Pending;
use spv_assign::creation_trace::GenFault;
use spv_assign::limited_steps::negated;
use spv_flow_parts::leaves::{Leaves, Valued};
use spv_flow_parts::{Body, IndexedProgram, ways};
use spv_logic::Sort;
use spv_term::{TermId, Terms};

// Conditions under a test, and behind them others under its negation.
fn both_ways(
    terms: &mut Terms,
    test: TermId,
    first: Pending,
    second: Pending,
) -> Result<Pending, GenFault>
    requires test { test.0 < length terms.old.nodes }
    requires sort { sort_at terms.old test ≡ Sort.Bool }
    requires first { AreIn terms.old first.items }
    requires second { AreIn terms.old second.items }
    ensures { ComesTo result
        (ways_made (tree terms.old test) (before.negated (tree terms.old test)) (conditions_of terms.old first.items) (conditions_of terms.old second.items))
        (in_order (ways_events (tree terms.old test) (conditions_of terms.old first.items) (conditions_of terms.old second.items)))
        terms.old terms.new }
{
    let other = negated(terms, test)?;
    ways(test, first, other, second)
}

/// Conditions under the negation of a test, and behind them others under the test.
pub(crate) fn turned_ways(
    terms: &mut Terms,
    test: TermId,
    first: Pending,
    second: Pending,
) -> Result<Pending, GenFault>
    requires test { test.0 < length terms.old.nodes }
    requires sort { sort_at terms.old test ≡ Sort.Bool }
    requires first { AreIn terms.old first.items }
    requires second { AreIn terms.old second.items }
    ensures { ComesTo result
        (ways_made (before.negated (tree terms.old test)) (tree terms.old test) (conditions_of terms.old first.items) (conditions_of terms.old second.items))
        (in_order (ways_events (tree terms.old test) (conditions_of terms.old first.items) (conditions_of terms.old second.items)))
        terms.old terms.new }
{
    let other = negated(terms, test)?;
    ways(other, first, test, second)
}

/// Conditions under a test, and behind them others under its negation, with the calls of the test in front of both.
pub fn tested_ways<L: Leaves>(
    leaves: &mut L,
    program: &IndexedProgram<'_>,
    body: &Body<'_>,
    terms: &mut Terms,
    test: &Valued,
    first: Pending,
    second: Pending,
) -> Result<Pending, GenFault>
    requires fits { L.fits leaves.old program.now body.now.here }
    requires test { test.now.term.0 < length terms.old.nodes }
    requires sort { sort_at terms.old test.now.term ≡ Sort.Bool }
    requires first { AreIn terms.old first.items }
    requires second { AreIn terms.old second.items }
    ensures fits { L.fits leaves.new program.now body.now.here }
    ensures made { (w : plain.Valued) → IsValueOf terms.old test.now w Sort.Bool
        → ComesTo result (tested_made body.now.here w (conditions_of terms.old first.items) (conditions_of terms.old second.items))
        (in_order (tested_events body.now.here w (conditions_of terms.old first.items) (conditions_of terms.old second.items))) terms.old terms.new }
{
    let uses = both_ways(terms, test.term, first, second)?;
    leaves.before_test(program, body, test, uses)
}
