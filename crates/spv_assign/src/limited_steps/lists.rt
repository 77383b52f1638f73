// Lists of conditions.

ghost use Rattle.std.specs.Prelude.{◌≡◌, ◌+◌, ◌<◌, ◌++◌, ◌↔◌, map, length, IfOk, IfErr, IsTrue};
ghost use Rattle.spv_term.specs.Arena.{Arena};
ghost use Rattle.spv_assign.specs.Conditions.{with_given, Assumes};
ghost use Rattle.spv_assign.specs.declared.creation_trace.faults.GenFault.TheVariants.{Memory};
ghost use Rattle.spv_assign.specs.creation_trace.Events.{Answers, longest_list};
ghost use Rattle.spv_assign.specs.creation_trace.StatementEvents.{counted};

use crate::creation_trace::{GenFault, LONGEST_LIST};
use crate::pending::Pending;
use spv_term::TermId;

// Whether two lists are too long together.
fn are_too_many(first: usize, second: usize) -> bool
    ensures { IsTrue result ↔ (longest_list < first + second) }
{
    let longest = LONGEST_LIST as usize;
    first > longest || second > longest - first
}

/// Two lists of conditions, one behind the other. `Conditions` comes exactly where they are more than
/// `LONGEST_LIST` together.
pub fn joined(first: Pending, second: Pending) -> Result<Pending, GenFault>
    ensures items { IfOk result (λ all. all.items ≡ first.items ++ second.items) }
    ensures walk { (a : Arena) → Answers result (counted (length first.items + length second.items)) a a }
{
    if are_too_many(first.len(), second.len()) {
        return Err(GenFault::Conditions(LONGEST_LIST));
    }
    Ok(first.joined(second)?)
}

/// Conditions with one hypothesis more, in front of each.
pub fn assumed(h: TermId, rest: Pending) -> Result<Pending, GenFault>
    ensures items { IfOk result (λ cs. cs.items ≡ map (with_given h) rest.items) }
    ensures assumes { IfOk result (λ cs. Assumes h rest.items cs.items) }
    ensures err { IfErr result (λ e. e ≡ Memory) }
{
    Ok(rest.assumed(h)?)
}
