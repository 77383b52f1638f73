// The table of a full path.

ghost use Rattle.std.specs.Prelude.{◌≡◌, ◌<◌, length, IfOk, IfSome, IfNone};
ghost use Rattle.spv_term.specs.Arena.{AllBelow};
ghost use Rattle.spv_branch_theory.specs.saturation.States.{AreListed};
ghost use Rattle.spv_branch_theory.specs.model_construction.Numbers.{IsFullTable};
ghost use Rattle.spv_search.specs.Finding.{HasFullState, IsFoundAlways};

use spv_branch_theory::model_construction::full_table;
use spv_branch_theory::saturation::{law_full_state, law_wide_value};
use spv_logic::list::List;
use spv_share::Both;
use spv_table::Table;
use spv_term::{Condition, TermId, Terms};
use spv_verdicts::answers::{Limit, Unproved, Verdict, Wide};
use spv_verdicts::model_check::{SurvivingFault, surviving};
use std::alloc::{AllocError, Global};

// What the table of a full path shows: the condition is unproved, or an operation is too wide.
fn judge(
    alloc: Global,
    terms: &Terms,
    condition: &Condition,
    subterms: &[TermId],
    listed: &[bool],
    both: &Both,
    table: Table,
) -> Result<Verdict, AllocError>
    requires given { AllBelow (length terms.now.nodes) condition.now.given }
    requires goal { condition.now.goal.0 < length terms.now.nodes }
    requires listed { AreListed terms.now condition.now subterms.now listed.now }
    requires state { HasFullState terms.now condition.now both.now }
    requires table { IsFullTable terms.now both.now subterms.now listed.now table.values }
    ensures { IfOk result (IsFoundAlways terms.now condition.now) }
{
    law_full_state();
    law_wide_value();
    let _ = subterms;
    let _ = listed;
    let _ = both;
    match surviving(alloc, terms, condition, &table) {
        Ok(Some(branch)) => Ok(Verdict::Unproved(Unproved {
            branch,
            table,
            instances: List::new(alloc),
        })),
        Ok(None) => unreachable!(),
        Err(SurvivingFault::Wide(t, wide)) => Ok(Verdict::GaveUp(
            List::new(alloc),
            Limit::Number(Wide::Value(table, t, wide.op, wide.left, wide.right)),
        )),
        Err(SurvivingFault::Memory) => Err(AllocError),
    }
}

/// The verdict at a full path: its table falsifies the condition, or an operation in it is too wide.
pub(crate) fn survey(
    alloc: Global,
    terms: &Terms,
    condition: &Condition,
    subterms: &[TermId],
    listed: &[bool],
    both: &Both,
) -> Result<Verdict, AllocError>
    requires given { AllBelow (length terms.now.nodes) condition.now.given }
    requires goal { condition.now.goal.0 < length terms.now.nodes }
    requires listed { AreListed terms.now condition.now subterms.now listed.now }
    requires state { HasFullState terms.now condition.now both.now }
    ensures { IfOk result (IsFoundAlways terms.now condition.now) }
{
    law_full_state();
    let table = full_table(alloc, terms, both, subterms, listed)?;
    judge(alloc, terms, condition, subterms, listed, both, table)
}
