// Lists of conditions.

ghost use Rattle.std.specs.Prelude.{◌≡◌, ◌+◌, ◌++◌, List, length, option_map, IfOk, IfErr};
ghost use Rattle.spv_logic.specs.Terms.{Term};
ghost use Rattle.spv_logic.specs.Conditions as logic;
ghost use Rattle.spv_term.specs.Arena.{Arena, tree};
ghost use Rattle.spv_assign.specs.Conditions.{AreIn, conditions_of};
ghost use Rattle.spv_meaning.specs.Before.{all_assuming, assuming_if_there};
ghost use Rattle.spv_assign.specs.declared.creation_trace.faults.GenFault.TheVariants.{Memory};
ghost use Rattle.spv_assign.specs.creation_trace.StatementEvents.{counted};
ghost use Rattle.spv_assign.specs.limited_steps.Makes.{IsTerm};
ghost use Rattle.spv_flow_parts.specs.Walks.{AreThese, ComesTo, IsThere};

use spv_assign::Pending;
use spv_assign::creation_trace::GenFault;
use spv_assign::limited_steps::{assumed, joined};
use spv_term::TermId;
use std::alloc::Global;

/// The same conditions once more.
pub fn copied(alloc: Global, conditions: &Pending) -> Result<Pending, GenFault>
    ensures items { IfOk result (λ cs. cs.items ≡ conditions.now.items) }
    ensures err { IfErr result (λ e. e ≡ Memory) }
{
    Ok(conditions.copied(alloc)?)
}

/// Conditions with what is known in front of each; the same where nothing is.
pub fn known(h: Option<TermId>, conditions: Pending) -> Result<Pending, GenFault>
    ensures conditions { (a : Arena) → IsThere a h → AreIn a conditions.items
        → IfOk result (λ cs. AreThese a cs.items (assuming_if_there (option_map (tree a) h) (conditions_of a conditions.items))) }
    ensures err { IfErr result (λ e. e ≡ Memory) }
{
    match h {
        None => Ok(conditions),
        Some(h) => assumed(h, conditions),
    }
}

/// Conditions under one hypothesis, and behind them others under another one.
pub fn ways(h: TermId, first: Pending, k: TermId, second: Pending) -> Result<Pending, GenFault>
    ensures { (a : Arena) (x y : Term) (cs ds : List logic.Condition) → IsTerm a h x → IsTerm a k y → AreThese a first.items cs → AreThese a second.items ds
        → ComesTo result (all_assuming x cs ++ all_assuming y ds) (counted (length cs + length ds)) a a }
{
    let first = assumed(h, first)?;
    let second = assumed(k, second)?;
    joined(first, second)
}
