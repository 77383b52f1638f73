// Arms of a CASE.

ghost use Rattle.std.specs.Prelude.{◌≡◌, ◌<◌, length};
ghost use Rattle.spv_term.specs.Arena.{sort_at, tree};
ghost use Rattle.spv_assign.specs.Conditions.{AreIn, conditions_of};
ghost use Rattle.spv_assign.specs.creation_trace.StatementEvents.{in_order};
ghost use Rattle.spv_flow_parts.specs.Walks.{ComesTo};
ghost use Rattle.spv_flow.specs.statement_rules.Rules.{arm_events, arm_made};

use spv_assign::Pending;
use spv_assign::creation_trace::GenFault;
use spv_assign::limited_steps::{assumed, is_label, joined};
use spv_logic::Sort;
use spv_term::{TermId, Terms};

/// The conditions of the arms so far, and behind them those before one more arm, under the hypothesis that the value is
/// one of its labels.
pub fn with_arm(
    terms: &mut Terms,
    t: TermId,
    labels: &[i64],
    so_far: Pending,
    first: Pending,
) -> Result<Pending, GenFault>
    requires t { t.0 < length terms.old.nodes }
    requires sort { sort_at terms.old t ≡ Sort.Int }
    requires so_far { AreIn terms.old so_far.items }
    requires first { AreIn terms.old first.items }
    ensures { ComesTo result
        (arm_made (tree terms.old t) labels.now (conditions_of terms.old so_far.items) (conditions_of terms.old first.items))
        (in_order (arm_events (tree terms.old t) labels.now (length so_far.items) (conditions_of terms.old first.items)))
        terms.old terms.new }
{
    let test = is_label(terms, t, labels)?;
    let under = assumed(test, first)?;
    joined(so_far, under)
}
