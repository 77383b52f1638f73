// Calls in front of conditions.

ghost use Rattle.std.specs.Prelude.{◌≡◌, ℕ, ◌+◌, List, Option, length, IfOk, IfErr};
ghost use Rattle.spv_logic.specs.Terms.{Term};
ghost use Rattle.spv_logic.specs.Conditions as logic;
ghost use Rattle.spv_term.specs.Arena.{Arena};
ghost use Rattle.spv_program.specs.ExpressionTerms as plain;
ghost use Rattle.spv_meaning.specs.Before.{assuming_if_there, before_calls, wanted_entry};
ghost use Rattle.spv_assign.specs.declared.creation_trace.faults.GenFault.TheVariants.{Memory};
ghost use Rattle.spv_assign.specs.creation_trace.StatementEvents.{counted};
ghost use Rattle.spv_flow_parts.specs.Walks.{AreThese, ComesTo};
ghost use Rattle.spv_flow_parts.specs.leaves.Values.{AreCalls, IsCall, IsTermIfThere, before_one, call_events};

use crate::leaves::valued::Called;
use crate::wanted;
use spv_assign::Pending;
use spv_assign::creation_trace::GenFault;
use spv_assign::limited_steps::{assumed, joined};
use spv_logic::{Kind, RoutineId};
use spv_term::TermId;
use std::alloc::Global;

// Conditions under what a call gives, where it gives something.
fn under_gives(gives: Option<TermId>, rest: Pending) -> Result<Pending, GenFault>
    ensures conditions { (a : Arena) (x : Option Term) (cs : List logic.Condition) → IsTermIfThere a gives x → AreThese a rest.items cs
        → IfOk result (λ all. AreThese a all.items (assuming_if_there x cs)) }
    ensures err { IfErr result (λ e. e ≡ Memory) }
{
    match gives {
        None => Ok(rest),
        Some(h) => assumed(h, rest),
    }
}

// The condition that what a call needs is true, where it needs something.
fn wanted_needs(
    alloc: Global,
    here: Option<RoutineId>,
    needs: Option<TermId>,
    line: u32,
) -> Result<Pending, GenFault>
    ensures conditions { (a : Arena) (x : Option Term) (l : ℕ) → IsTermIfThere a needs x → line ≡ l → IfOk result (λ all. AreThese a all.items (wanted_entry here l x)) }
    ensures err { IfErr result (λ e. e ≡ Memory) }
{
    match needs {
        None => Ok(Pending::new(alloc)),
        Some(t) => wanted(alloc, here, Kind::Entry, t, line),
    }
}

fn one_call(
    alloc: Global,
    here: Option<RoutineId>,
    call: &Called,
    rest: Pending,
) -> Result<Pending, GenFault>
    ensures { (a : Arena) (d : plain.Called) (cs : List logic.Condition) → IsCall a call.now d → AreThese a rest.items cs
        → ComesTo result (before_one here d cs) (counted (length (wanted_entry here d.line d.needs) + length cs)) a a }
{
    let under = under_gives(call.gives, rest)?;
    let first = wanted_needs(alloc, here, call.needs, call.line)?;
    joined(first, under)
}

/// Calls in front of conditions, the first one in front of all: what each needs is wanted, and what it gives is known from
/// there on. `Conditions` comes where a list on the way is longer than `LONGEST_LIST`.
pub fn in_front(
    alloc: Global,
    here: Option<RoutineId>,
    calls: &[Called],
    rest: Pending,
) -> Result<Pending, GenFault>
    ensures { (a : Arena) (ds : List plain.Called) (cs : List logic.Condition) → AreCalls a calls.now ds → AreThese a rest.items cs
        → ComesTo result (before_calls here ds cs) (call_events here ds cs) a a }
{
    let mut made = rest;
    for place in (0..calls.len()).rev() {
        made = one_call(alloc, here, &calls[place], made)?;
    }
    Ok(made)
}
