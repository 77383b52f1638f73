// A table is tried.

ghost use Rattle.std.specs.Prelude.{◌<◌, length, IfOk};
ghost use Rattle.spv_term.specs.Arena.{AllBelow};
ghost use Rattle.spv_table.specs.Kept.{PairsIn, listed_over};
ghost use Rattle.spv_verdicts.specs.model_check.Surviving.{ShowsFalse};
ghost use Rattle.spv_verdicts.specs.candidate_models.Trying.{IsTried, ListsSubterms};

use crate::candidate_models::agreeing::{Agreement, find_agreement};
use crate::model_check::{SurvivingFault, surviving};
use spv_logic::list::List;
use spv_table::Table;
use spv_term::{Condition, TermId, Terms};
use std::alloc::{AllocError, Global};

/// What came of trying a table.
#[derive(Debug, Drop)]
pub enum Tried {
    /// It shows the condition false: each atom with its truth.
    Shown(List<(TermId, bool)>),
    /// It would, but these two of its terms are of one head, and of arguments that are worth the same, and have two numbers.
    Apart(TermId, TermId),
    /// It does not: a hypothesis is false in it, or the goal is true, or an operation is too wide.
    NotShown,
}

// What came of a table in which each hypothesis is true and the goal is false.
fn shown(
    alloc: Global,
    terms: &Terms,
    condition: &Condition,
    table: &Table,
    branch: List<(TermId, bool)>,
) -> Result<Tried, AllocError>
    requires values { PairsIn terms.now table.now.values }
    requires lists { ListsSubterms terms.now condition.now table.now.values }
    requires shows { ShowsFalse terms.now condition.now (listed_over terms.now table.now.values) branch }
    ensures { IfOk result (IsTried terms.now condition.now table.now) }
{
    let _ = condition;
    match find_agreement(alloc, terms, table)? {
        Agreement::Whole => Ok(Tried::Shown(branch)),
        Agreement::Apart(t, u) => Ok(Tried::Apart(t, u)),
        Agreement::Unknown => Ok(Tried::NotShown),
    }
}

/// What comes of a table that lists the subterms of a condition that it has to: where each hypothesis is true in it and the goal is false, and
/// it is one, the condition is unproved. Nothing is asked of where its numbers come from.
pub fn try_table(
    alloc: Global,
    terms: &Terms,
    condition: &Condition,
    table: &Table,
) -> Result<Tried, AllocError>
    requires given { AllBelow (length terms.now.nodes) condition.now.given }
    requires goal { condition.now.goal.0 < length terms.now.nodes }
    requires values { PairsIn terms.now table.now.values }
    requires lists { ListsSubterms terms.now condition.now table.now.values }
    ensures { IfOk result (IsTried terms.now condition.now table.now) }
{
    match surviving(alloc, terms, condition, table) {
        Ok(Some(branch)) => shown(alloc, terms, condition, table, branch),
        Ok(None) => Ok(Tried::NotShown),
        Err(SurvivingFault::Wide(_, _)) => Ok(Tried::NotShown),
        Err(SurvivingFault::Memory) => Err(AllocError),
    }
}
