// The difference of two linear forms.

ghost use Rattle.std.specs.Prelude.{◌≡◌, IfOk, IsTrue, ◌+ℤ◌, ◌*ℤ◌, negsuc};
ghost use Rattle.std.specs.Option.{option_map};
ghost use Rattle.spv_frac.specs.Range.{fits};
ghost use Rattle.spv_atoms.specs.Linear.{ArePartsFrom, IsIdForm};
ghost use Rattle.spv_atoms.specs.Sums.{SummedParts};
ghost use Rattle.spv_proof.specs.sums.Differences.{more, negated_parts, IsConstant, IsDifferenceForm};

use spv_atoms::Linear;
use spv_atoms::parts::{behind, least_id, number_in_front, push_number};
use spv_frac::plus;
use spv_term::TermId;
use std::alloc::{AllocError, Global};
use std::marker::Model;

/// A form: a sum of terms, each times a number, and a constant. The ids of its parts ascend, no number
/// of a part is zero, and all numbers lie from -(2^127 - 1) to 2^127 - 1.
#[derive(Debug, Drop)]
pub(crate) struct Form {
    parts: Vec<(TermId, i128)>,
    constant: i128,
}

impl Model for Form {
    ghost use Rattle.spv_atoms.specs.Linear.{IdForm, IsIdForm};

    ghost Value = { IdForm };

    ghost view = { λ f. record { parts = f.parts.items; constant = f.constant } };

    ghost invariant = { λ f. IsIdForm (record { parts = f.parts.items; constant = f.constant }) };
}

impl Form {
    // The terms that are summed, in ascending order of their ids, each with what it is multiplied by.
    pub(crate) fn parts(&self) -> &[(TermId, i128)]
        ensures { result.now ≡ self.now.parts }
    {
        self.parts.as_slice()
    }

    // The constant.
    pub(crate) fn constant(&self) -> i128
        ensures { result ≡ self.now.constant }
    {
        self.constant
    }

    // What is true of every form: its ids ascend, no number of a part is zero, and all numbers fit.
    pub(crate) fn law_form(&self)
        ensures { IsIdForm self.now }
    {
        let _parts = &self.parts;
    }
}

// The difference of two numbers, where it fits.
fn minus(left: i128, right: i128) -> Option<i128>
    requires left { IsTrue (fits left) }
    requires right { IsTrue (fits right) }
    ensures { IsConstant (left +ℤ negsuc 0 *ℤ right) result }
{
    match plus(left, -right) {
        Ok(number) => Some(number),
        Err(_) => None,
    }
}

// The difference of two numbers, or 1 more, where it fits.
fn constant(left: i128, right: i128, is_above: bool) -> Option<i128>
    requires left { IsTrue (fits left) }
    requires right { IsTrue (fits right) }
    ensures { IsConstant (left +ℤ negsuc 0 *ℤ right +ℤ more is_above) result }
{
    if !is_above {
        return minus(left, right);
    }
    if right > 0 {
        return minus(left, right - 1);
    }
    if left == i128::MAX {
        return None;
    }
    minus(left + 1, right)
}

// The parts that give each id the difference of its numbers; `None` where one of these does not fit.
fn part_differences(
    alloc: Global,
    left: &[(TermId, i128)],
    right: &[(TermId, i128)],
) -> Result<Option<Vec<(TermId, i128)>>, AllocError>
    requires left { ArePartsFrom 0 left.now }
    requires right { ArePartsFrom 0 right.now }
    ensures { IfOk result (λ parts. SummedParts left.now (negated_parts right.now) (option_map (λ v. v.items) parts)) }
{
    let mut parts = Vec::new(alloc);
    let mut left_rest = left;
    let mut right_rest = right;
    while let Some(t) = least_id(left_rest, right_rest) {
        let Some(number) = minus(
            number_in_front(left_rest, t),
            number_in_front(right_rest, t),
        ) else {
            return Ok(None);
        };
        push_number(&mut parts, t, number)?;
        left_rest = behind(left_rest, t);
        right_rest = behind(right_rest, t);
    }
    Ok(Some(parts))
}

// The difference of two forms, or 1 more; `None` where one of its numbers does not fit.
pub(crate) fn difference(
    alloc: Global,
    left: &Linear,
    right: &Linear,
    is_above: bool,
) -> Result<Option<Form>, AllocError>
    ensures { IfOk result (λ form. IsDifferenceForm is_above left.now right.now form) }
{
    left.law_linear();
    right.law_linear();
    let Some(constant) = constant(left.constant(), right.constant(), is_above) else {
        return Ok(None);
    };
    match part_differences(alloc, left.parts(), right.parts())? {
        Some(parts) => Ok(Some(Form { parts, constant })),
        None => Ok(None),
    }
}
