// For each type the first one that is the same.

ghost use Rattle.std.specs.Prelude.{◌≡◌, [], ◌∷◌, ◌++◌, length, map, IfOk};
ghost use Rattle.spv_typing.specs.Merging as spec;
ghost use Rattle.spv_declaration_typing.specs.pointer_types.Views.{written_of, all_written};

use crate::pointer_types::rounds::{alike, push};
use crate::pointer_types::written::Written;
use spv_logic::TypeId;
use spv_program::TypeForm;
use spv_program::ordered_map::Named;
use std::alloc::{AllocError, Global};

// The number of a pointer's target, as it is before anything is put together.
fn target(names: &Named<TypeId>, written: &Written) -> Option<usize>
    ensures { result ≡ spec.target_number names.now (written_of written.now) }
{
    match written {
        Written::Built(form) => match form {
            TypeForm::Pointer(t) => Some(t.0 as usize),
            _ => None,
        },
        Written::PointerTo(x) => match names.get(*x) {
            Some(t) => Some(t.0 as usize),
            None => None,
        },
    }
}

/// For each type the number of its target, where it is a pointer.
pub fn targets(
    alloc: Global,
    names: &Named<TypeId>,
    written: &[Written],
) -> Result<Vec<Option<usize>>, AllocError>
    ensures { IfOk result (λ v. v.items ≡ map (spec.target_number names.now) (all_written written.now)) }
{
    let mut targets = Vec::new(alloc);
    for one in written {
        push(&mut targets, target(names, one))?;
    }
    Ok(targets)
}

fn numbers(alloc: Global, targets: &[Option<usize>]) -> Result<Vec<usize>, AllocError>
    ensures { IfOk result (λ v. v.items ≡ spec.numbers_from 0 targets.now) }
{
    let mut numbers = Vec::new(alloc);
    for place in 0..targets.len() {
        push(&mut numbers, place)?;
    }
    Ok(numbers)
}

fn all_rounds(alloc: Global, targets: &[Option<usize>]) -> Result<Vec<usize>, AllocError>
    ensures { IfOk result (λ v. v.items ≡ spec.firsts targets.now) }
{
    let mut now = numbers(alloc, targets)?;
    for round in 0..targets.len() {
        let _ = round;
        let next = alike(alloc, targets, now.as_slice())?;
        if next.as_slice() == now.as_slice() {
            return Ok(now);
        }
        now = next;
    }
    Ok(now)
}

/// For each type the first one that is the same.
pub(crate) fn firsts(
    alloc: Global,
    names: &Named<TypeId>,
    written: &[Written],
) -> Result<Vec<usize>, AllocError>
    ensures { IfOk result (λ v. v.items ≡ spec.firsts (map (spec.target_number names.now) (all_written written.now))) }
{
    let targets = targets(alloc, names, written)?;
    all_rounds(alloc, targets.as_slice())
}
