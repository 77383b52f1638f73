// One round: pointers whose targets were the same become the same.

ghost use Rattle.std.specs.Prelude.{◌≡◌, ◌≤◌, ◌<◌, ◌+◌, [], ◌∷◌, ◌++◌, length, map, IfOk, OnOk, None, Some};
ghost use Rattle.spv_typing.specs.Merging.{alike_from};
ghost use Rattle.spv_declaration_typing.specs.pointer_types.Rounds.{target_first, marked, next_of, Below, IsLed, IsWithin};

use std::alloc::{AllocError, Global};

pub(crate) fn push<T: Drop>(items: &mut Vec<T>, item: T) -> Result<(), AllocError>
    ensures { OnOk result (items.new.items ≡ items.old.items ++ item ∷ []) }
{
    items.push(item)?;
    Ok(())
}

#[tactic(auto, using(crate::proofs::pointer_types::Places::item_there, crate::proofs::pointer_types::Places::item_missing))]
fn first_of_target(firsts: &[usize], target: Option<usize>) -> Option<usize>
    ensures { result ≡ target_first firsts.now target }
{
    match target {
        None => None,
        Some(t) => {
            if t < firsts.len() {
                Some(firsts[t])
            } else {
                None
            }
        }
    }
}

// For each type the first one that its target is the same as.
fn targets_seen(
    alloc: Global,
    targets: &[Option<usize>],
    firsts: &[usize],
) -> Result<Vec<Option<usize>>, AllocError>
    ensures { IfOk result (λ v. v.items ≡ map (target_first firsts.now) targets.now) }
{
    let mut seen = Vec::new(alloc);
    for target in targets {
        let first = first_of_target(firsts, *target);
        push(&mut seen, first)?;
    }
    Ok(seen)
}

fn mark(leaders: &mut Vec<usize>, first: Option<usize>, place: usize)
    ensures { leaders.new.items ≡ marked leaders.old.items first place }
{
    if let Some(f) = first {
        if f < leaders.len() {
            leaders[f] = place;
        }
    }
}

// For each type the first pointer that leads there.
fn leaders(alloc: Global, seen: &[Option<usize>]) -> Result<Vec<usize>, AllocError>
    ensures { IfOk result (λ v. IsLed seen.now v.items) }
{
    let count = seen.len();
    let mut leaders = vec![in alloc; count; count + 1]?;
    for place in (0..count).rev() {
        mark(&mut leaders, seen[place], place);
    }
    Ok(leaders)
}

fn next_first(leaders: &[usize], place: usize, target: Option<usize>, seen: Option<usize>) -> usize
    requires { Below (length leaders.now) seen }
    ensures { result ≡ next_of leaders.now place target seen }
{
    match target {
        None => place,
        Some(_) => match seen {
            None => leaders.len() - 1,
            Some(first) => leaders[first],
        },
    }
}

/// The first types that are the same, after one more round.
pub(crate) fn alike(
    alloc: Global,
    targets: &[Option<usize>],
    firsts: &[usize],
) -> Result<Vec<usize>, AllocError>
    requires { IsWithin (length targets.now) firsts.now }
    ensures { IfOk result (λ v. v.items ≡ alike_from targets.now firsts.now 0 targets.now) }
{
    let seen = targets_seen(alloc, targets, firsts)?;
    let leaders = leaders(alloc, seen.as_slice())?;
    let led = leaders.as_slice();
    let mut next = Vec::new(alloc);
    for place in 0..targets.len() {
        let target = targets[place];
        let first = next_first(led, place, target, first_of_target(firsts, target));
        push(&mut next, first)?;
    }
    Ok(next)
}
