// How many instances may still come.

ghost use Rattle.std.specs.Prelude.{◌≡◌, ◌+◌, ◌++◌, length, IfSome, IfOk, OnOk};
ghost use Rattle.spv_rounds.specs.telling.Told.{all_members};

use spv_logic::list::List;
use spv_verdicts::answers::{Instance, Round};
use std::alloc::{AllocError, Global};

/// How many members may come to those of rounds, where there may be so many; none where they are more.
pub(crate) fn room(rounds: &[Round], most: u64) -> Option<u64>
    ensures { IfSome result (λ left. left + length (all_members rounds.now) ≡ most) }
{
    let mut left = most;
    for round in rounds {
        let count = round.members.len() as u64;
        if count > left {
            return None;
        }
        left -= count;
    }
    Some(left)
}

// A copy of an instance.
fn same_instance(alloc: Global, instance: &Instance) -> Result<Instance, AllocError>
    ensures { IfOk result (λ i. i ≡ instance.now) }
{
    let values = instance.values.as_slice().to_vec(alloc)?;
    Ok(Instance {
        rule: instance.rule,
        values: List::from_vec(values),
    })
}

// Copies of instances come behind others.
fn add_all(alloc: Global, members: &[Instance], list: &mut Vec<Instance>) -> Result<(), AllocError>
    ensures { OnOk result (list.new.items ≡ list.old.items ++ members.now) }
{
    for member in members {
        list.push(same_instance(alloc, member)?)?;
    }
    Ok(())
}

/// The members of rounds, in order.
pub(crate) fn members(alloc: Global, rounds: &[Round]) -> Result<List<Instance>, AllocError>
    ensures { IfOk result (λ list. list ≡ all_members rounds.now) }
{
    let mut list = Vec::new(alloc);
    for round in rounds {
        add_all(alloc, round.members.as_slice(), &mut list)?;
    }
    Ok(List::from_vec(list))
}
