// The first types that are the same, behind types that are told apart already.

ghost use Rattle.std.specs.Prelude.{◌≡◌, [], ◌∷◌, ◌++◌, length, nat_eq, IfOk, OnOk};
ghost use Rattle.std.specs.List.{list_all};
ghost use Rattle.std.specs.Map.{lookup};
ghost use Rattle.spv_program.specs.Lists.{item_at};
ghost use Rattle.spv_declaration_typing.specs.canonical_types.Behind.{known_or, seen_or, seen_with, seen_after, first_told, firsts_behind, is_low};

use indexmap::IndexMap;
use std::alloc::{AllocError, Global};

fn push(items: &mut Vec<usize>, item: usize) -> Result<(), AllocError>
    ensures { OnOk result (items.new.items ≡ items.old.items ++ item ∷ []) }
{
    items.push(item)?;
    Ok(())
}

/// Whether all targets are among the first types.
pub(crate) fn all_low(targets: &[Option<usize>], base: usize) -> bool
    ensures { result ≡ list_all (is_low base) targets.now }
{
    for target in targets {
        if let Some(t) = target {
            if *t >= base {
                return false;
            }
        }
    }
    true
}

// The first pointer behind that leads to a type, where this one is not it.
#[tactic(auto, using(crate::proofs::canonical_types::Seeing::put_last))]
fn first_seen(
    seen: &mut IndexMap<usize, usize>,
    target: usize,
    place: usize,
) -> Result<usize, AllocError>
    ensures first { IfOk result (λ n. n ≡ seen_or place (lookup (nat_eq target) seen.old.entries)) }
    ensures entries { OnOk result (seen.new.entries ≡ seen_with seen.old.entries target place (lookup (nat_eq target) seen.old.entries)) }
{
    if let Some(first) = seen.get(&target) {
        return Ok(*first);
    }
    seen.insert(target, place)?;
    Ok(place)
}

#[tactic(auto, using(crate::proofs::canonical_types::Seeing::item_there, crate::proofs::canonical_types::Seeing::item_past))]
fn known_or(pointers: &[Option<usize>], target: usize, other: usize) -> usize
    ensures { result ≡ known_or other (item_at pointers.now target) }
{
    if target < pointers.len() {
        match pointers[target] {
            Some(p) => p,
            None => other,
        }
    } else {
        other
    }
}

// The first type that is the same as the one at a place.
fn first_told(
    pointers: &[Option<usize>],
    seen: &mut IndexMap<usize, usize>,
    target: Option<usize>,
    place: usize,
) -> Result<usize, AllocError>
    ensures first { IfOk result (λ n. n ≡ first_told pointers.now seen.old.entries place target) }
    ensures entries { OnOk result (seen.new.entries ≡ seen_after seen.old.entries place target) }
{
    match target {
        None => Ok(place),
        Some(t) => {
            let new = first_seen(seen, t, place)?;
            Ok(known_or(pointers, t, new))
        }
    }
}

/// For each type behind the first that is the same.
pub(crate) fn firsts_behind(
    alloc: Global,
    pointers: &[Option<usize>],
    targets: &[Option<usize>],
) -> Result<Vec<usize>, AllocError>
    ensures { IfOk result (λ v. v.items ≡ firsts_behind pointers.now (length pointers.now) targets.now) }
{
    let base = pointers.len();
    let mut seen = IndexMap::new(alloc);
    let mut firsts = Vec::new(alloc);
    for place in 0..targets.len() {
        let first = first_told(pointers, &mut seen, targets[place], base + place)?;
        push(&mut firsts, first)?;
    }
    Ok(firsts)
}
