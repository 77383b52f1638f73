//! Lists of parts, each an id with a number, in ascending order of the ids: sums and multiples.

ghost use Rattle.std.specs.Prelude.{◌≡◌, OnOk, IfOk, length};
ghost use Rattle.std.specs.Option.{option_map};
ghost use Rattle.spv_atoms.specs.Linear.{ArePartsFrom};
ghost use Rattle.spv_atoms.specs.Sums as spec;
ghost use Rattle.spv_atoms.specs.Sums.{SummedParts, ScaledParts};

use spv_frac::{plus, times};
use spv_term::TermId;
use std::alloc::{AllocError, Global};

/// The number of an id, where it is the first one.
pub fn number_in_front(parts: &[(TermId, i128)], t: TermId) -> i128
    ensures { result ≡ spec.number_in_front parts.now t }
{
    match parts {
        [part, ..] => { if part.0 == t { part.1 } else { 0 } }
        [] => 0,
    }
}

/// The parts behind an id, where it is the first one.
pub fn behind(parts: &[(TermId, i128)], t: TermId) -> &[(TermId, i128)]
    ensures { result.now ≡ spec.behind parts.now t }
{
    match parts {
        [part, rest @ ..] => { if part.0 == t { rest } else { parts } }
        [] => parts,
    }
}

// The first id.
fn first_id(parts: &[(TermId, i128)]) -> Option<TermId>
    ensures { result ≡ spec.first_id parts.now }
{
    match parts {
        [part, ..] => Some(part.0),
        [] => None,
    }
}

// The lesser of an id and the first one.
fn lesser_id(t: TermId, parts: &[(TermId, i128)]) -> TermId
    ensures { result ≡ spec.lesser_id t parts.now }
{
    match parts {
        [part, ..] => { if part.0.0 < t.0 { part.0 } else { t } }
        [] => t,
    }
}

/// The lesser of the first ids of both.
pub fn least_id(left: &[(TermId, i128)], right: &[(TermId, i128)]) -> Option<TermId>
    ensures { result ≡ spec.least_id left.now right.now }
{
    match left {
        [part, ..] => Some(lesser_id(part.0, right)),
        [] => first_id(right),
    }
}

/// Puts a part at the end, unless its number is zero.
pub fn push_number(
    parts: &mut Vec<(TermId, i128)>,
    t: TermId,
    number: i128,
) -> Result<(), AllocError>
    ensures { OnOk result (parts.new.items ≡ spec.with_number parts.old.items t number) }
{
    if number == 0 {
        return Ok(());
    }
    parts.push((t, number))?;
    Ok(())
}

/// The parts that give each id the sum of its numbers; `None` where one of these sums does not fit.
pub(crate) fn sum(
    alloc: Global,
    left: &[(TermId, i128)],
    right: &[(TermId, i128)],
) -> Result<Option<Vec<(TermId, i128)>>, AllocError>
    requires left { ArePartsFrom 0 left.now }
    requires right { ArePartsFrom 0 right.now }
    ensures { IfOk result (λ parts. SummedParts left.now right.now (option_map (λ v. v.items) parts)) }
{
    let mut parts = Vec::new(alloc);
    let mut left_rest = left;
    let mut right_rest = right;
    while let Some(t) = least_id(left_rest, right_rest) {
        let Ok(number) = plus(
            number_in_front(left_rest, t),
            number_in_front(right_rest, t),
        ) else {
            return Ok(None);
        };
        push_number(&mut parts, t, number)?;
        left_rest = behind(left_rest, t);
        right_rest = behind(right_rest, t);
    }
    Ok(Some(parts))
}

/// The parts that give each id a multiple of its number; `None` where one of these does not fit.
pub(crate) fn scaled(
    alloc: Global,
    factor: i128,
    from: &[(TermId, i128)],
) -> Result<Option<Vec<(TermId, i128)>>, AllocError>
    requires { ArePartsFrom 0 from.now }
    ensures { IfOk result (λ parts. ScaledParts factor from.now (option_map (λ v. v.items) parts)) }
{
    let mut parts = Vec::new(alloc);
    for part in from {
        let Ok(number) = times(factor, part.1) else {
            return Ok(None);
        };
        push_number(&mut parts, part.0, number)?;
    }
    Ok(Some(parts))
}
