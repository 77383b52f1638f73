// A search that gives up, since a check of the tableau stopped at a limit.

ghost use Rattle.std.specs.Prelude.{◌≡◌, IfOk};
ghost use Rattle.spv_term.specs.declared.nodes.Condition.{Condition};
ghost use Rattle.spv_term.specs.Arena.{Arena};
ghost use Rattle.spv_verdicts.specs.Verdicts.{Limits};
ghost use Rattle.spv_branch_theory.specs.evidence.Laws.{IsStoppedFor};
ghost use Rattle.spv_share.specs.States.{IsLimit};
ghost use Rattle.spv_search.specs.Finding.{is_too_wide, IsFound, IsStoppedBy};

use spv_logic::list::List;
use spv_share::Both;
use spv_simplex::{Checked, Evidence};
use spv_verdicts::answers::{Limit, Verdict, Wide};
use std::alloc::{AllocError, Global};

// Whether a check met a number that is too wide.
fn is_wide(answer: Option<Checked>) -> bool
    ensures { result ≡ is_too_wide answer }
{
    match answer {
        Some(Checked::Wide) => true,
        _ => false,
    }
}

// Why the last check of the tableau stopped, and whether at a number that is too wide.
fn stopped(alloc: Global, both: &Both) -> Result<(bool, Evidence), AllocError>
    requires { IsLimit both.now }
    ensures { IfOk result (λ r. IsStoppedBy both.now r.0 r.1) }
{
    let wide = is_wide(both.standing.tableau.answer());
    let evidence = both.evidence().copied(alloc)?;
    Ok((wide, evidence))
}

/// Gives up, where a check of the tableau was stopped.
pub(crate) fn give_up(alloc: Global, both: &Both) -> Result<Verdict, AllocError>
    requires { IsLimit both.now }
    ensures { IfOk result (λ v. (a : Arena) (c : Condition) (limits : Limits) → IsStoppedFor a c both.now → both.now.standing.tableau.pivots ≡ limits.pivots
        → IsFound a c limits v) }
{
    let (is_wide, evidence) = stopped(alloc, both)?;
    if is_wide {
        Ok(Verdict::GaveUp(List::new(alloc), Limit::Number(Wide::Pivot(evidence))))
    } else {
        Ok(Verdict::GaveUp(List::new(alloc), Limit::Pivots(evidence)))
    }
}
