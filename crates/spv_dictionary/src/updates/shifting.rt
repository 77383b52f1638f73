// Values that go on with that of a column outside the basis.

ghost use Rattle.std.specs.Prelude.{◌≡◌, ◌<◌, ◌↔◌, false, true, length, nat_eq, IsOk, IfOk, IfErr, OnOk};
ghost use Rattle.spv_frac.specs.rational.Rational.{is_zero};
ghost use Rattle.spv_tableau_rules.specs.tableaux.Operations.{fits};
ghost use Rattle.spv_dictionary.specs.Dictionary.{basic_at};
ghost use Rattle.spv_dictionary.specs.updates.Shifts.{value_in, entry_in, can_go, IsGoing, IsRowGoing, CanGoTo, HasGoneTo, HasGone};
ghost use Rattle.spv_dictionary.specs.updates.Shifts as spec;

use crate::Dictionary;
use crate::checked_numbers::{Number, Refused};

// A value, and a distance times an entry.
fn gone(value: Number, distance: Number, entry: Number) -> Result<Number, Refused>
    ensures fits { IsOk result ↔ (can_go value distance entry ≡ true) }
    ensures value { IfOk result (λ n. n ≡ spec.gone value distance entry) }
    ensures refused { IfErr result (λ o. IsGoing value distance entry o) }
    ensures unfit { IfErr result (λ o. fits o ≡ false) }
{
    match distance.mul(entry) {
        Ok(product) => value.add(product),
        Err(refused) => Err(refused),
    }
}

// Whether the value of a row's column can go on, if it has to.
fn test_row(
    dictionary: &Dictionary,
    values: &[Number],
    slot: usize,
    distance: Number,
    skip: usize,
    row: usize,
) -> Result<(), Refused>
    requires count { length values.now ≡ length dictionary.now.spots }
    requires slot { slot < length dictionary.now.outside }
    requires row { row < length dictionary.now.basic }
    ensures ok { OnOk result (nat_eq row skip ≡ false → is_zero (entry_in dictionary.now row slot) ≡ false
        → can_go (value_in values.now (basic_at dictionary.now row)) distance (entry_in dictionary.now row slot) ≡ true) }
    ensures refused { IfErr result (λ o. IsRowGoing dictionary.now values.now slot distance skip o) }
    ensures unfit { IfErr result (λ o. fits o ≡ false) }
{
    dictionary.law_dictionary();
    let entry = dictionary.row(row).get(slot);
    if row == skip {
        return Ok(());
    }
    if entry.is_zero() {
        return Ok(());
    }
    match gone(values[dictionary.basic(row) as usize], distance, entry) {
        Ok(_) => Ok(()),
        Err(refused) => Err(refused),
    }
}

/// Whether the values of all rows' columns but one can go on with that of a slot, by a distance.
pub fn test(
    dictionary: &Dictionary,
    values: &[Number],
    slot: usize,
    distance: Number,
    skip: usize,
) -> Result<(), Refused>
    requires count { length values.now ≡ length dictionary.now.spots }
    requires slot { slot < length dictionary.now.outside }
    ensures ok { OnOk result (CanGoTo dictionary.now values.now slot distance skip (length dictionary.now.basic)) }
    ensures refused { IfErr result (λ o. IsRowGoing dictionary.now values.now slot distance skip o) }
    ensures unfit { IfErr result (λ o. fits o ≡ false) }
{
    for row in 0..dictionary.rows() {
        match test_row(dictionary, values, slot, distance, skip, row) {
            Ok(()) => {}
            Err(refused) => return Err(refused),
        }
    }
    Ok(())
}

// The value of a row's column goes on, if it has to.
fn shift_row(
    dictionary: &Dictionary,
    values: &mut [Number],
    slot: usize,
    distance: Number,
    skip: usize,
    row: usize,
)
    requires count { length values.old ≡ length dictionary.now.spots }
    requires slot { slot < length dictionary.now.outside }
    requires row { row < length dictionary.now.basic }
    requires can { nat_eq row skip ≡ false → is_zero (entry_in dictionary.now row slot) ≡ false
        → can_go (value_in values.old (basic_at dictionary.now row)) distance (entry_in dictionary.now row slot) ≡ true }
    ensures { HasGone dictionary.now values.old slot distance skip row values.new }
{
    dictionary.law_dictionary();
    let entry = dictionary.row(row).get(slot);
    if row == skip {
        return;
    }
    if entry.is_zero() {
        return;
    }
    let column = dictionary.basic(row) as usize;
    values[column] = gone(values[column], distance, entry).unwrap();
}

/// The values of all rows' columns but one go on with that of a slot, by a distance, after this was tested.
pub fn shift(
    dictionary: &Dictionary,
    values: &mut [Number],
    slot: usize,
    distance: Number,
    skip: usize,
)
    requires count { length values.old ≡ length dictionary.now.spots }
    requires slot { slot < length dictionary.now.outside }
    requires can { CanGoTo dictionary.now values.old slot distance skip (length dictionary.now.basic) }
    ensures { HasGoneTo dictionary.now values.old slot distance skip (length dictionary.now.basic) values.new }
{
    dictionary.law_dictionary();
    for row in 0..dictionary.rows() {
        shift_row(dictionary, values, slot, distance, skip, row);
    }
}
