// A column outside the basis moves to a bound.

ghost use Rattle.std.specs.Prelude.{◌≡◌, ◌<◌, false, length, IfOk, IfErr, OnOk, OnErr};
ghost use Rattle.spv_tableau_rules.specs.tableaux.Operations.{fits};
ghost use Rattle.spv_dictionary.specs.updates.Shifts.{CanGoTo};
ghost use Rattle.spv_dictionary.specs.pivoting.Moving.{way_to, IsMoving, AreMovedTo};

use crate::Dictionary;
use crate::checked_numbers::{Number, Refused};

// How far the column of a slot is from a bound.
fn way_of(
    dictionary: &Dictionary,
    values: &[Number],
    slot: usize,
    bound: Number,
) -> Result<Number, Refused>
    requires count { length values.now ≡ length dictionary.now.spots }
    requires slot { slot < length dictionary.now.outside }
    ensures value { IfOk result (λ n. n ≡ way_to dictionary.now values.now slot bound) }
    ensures refused { IfErr result (λ o. IsMoving dictionary.now values.now slot bound o) }
    ensures unfit { IfErr result (λ o. fits o ≡ false) }
{
    dictionary.law_dictionary();
    bound.sub(values[dictionary.outside(slot) as usize])
}

// Whether all values can go with the column of a slot to a bound.
fn test(
    dictionary: &Dictionary,
    values: &[Number],
    slot: usize,
    bound: Number,
) -> Result<Number, Refused>
    requires count { length values.now ≡ length dictionary.now.spots }
    requires slot { slot < length dictionary.now.outside }
    ensures value { IfOk result (λ n. n ≡ way_to dictionary.now values.now slot bound) }
    ensures can { IfOk result (λ n. CanGoTo dictionary.now values.now slot n (length dictionary.now.basic) (length dictionary.now.basic)) }
    ensures refused { IfErr result (λ o. IsMoving dictionary.now values.now slot bound o) }
    ensures unfit { IfErr result (λ o. fits o ≡ false) }
{
    match way_of(dictionary, values, slot, bound) {
        Ok(way) => match crate::updates::test(dictionary, values, slot, way, dictionary.rows()) {
            Ok(()) => Ok(way),
            Err(refused) => Err(refused),
        },
        Err(refused) => Err(refused),
    }
}

/// The column of a slot moves to a bound, and all columns in the basis with it. Where something does not fit,
/// all stays as it is.
pub fn move_to(
    dictionary: &Dictionary,
    values: &mut [Number],
    slot: usize,
    bound: Number,
) -> Result<(), Refused>
    requires count { length values.old ≡ length dictionary.now.spots }
    requires slot { slot < length dictionary.now.outside }
    ensures made { OnOk result (AreMovedTo dictionary.now values.old slot bound values.new) }
    ensures values { OnErr result (values.new ≡ values.old) }
    ensures refused { IfErr result (λ o. IsMoving dictionary.now values.old slot bound o) }
    ensures unfit { IfErr result (λ o. fits o ≡ false) }
{
    dictionary.law_dictionary();
    match test(dictionary, values, slot, bound) {
        Ok(way) => {
            crate::updates::shift(dictionary, values, slot, way, dictionary.rows());
            values[dictionary.outside(slot) as usize] = bound;
            Ok(())
        }
        Err(refused) => Err(refused),
    }
}
