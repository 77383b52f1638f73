// A step: a column of the basis goes to its bound, and another one enters for it.

ghost use Rattle.std.specs.Prelude.{◌≡◌, ◌<◌, false, length, IfOk, IfErr, OnOk, OnErr};
ghost use Rattle.spv_frac.specs.rational.Rational.{is_zero, plus};
ghost use Rattle.spv_tableau_rules.specs.tableaux.Operations.{fits};
ghost use Rattle.spv_dictionary.specs.Dictionary.{basic_at, outside_at, with_solved};
ghost use Rattle.spv_dictionary.specs.updates.Shifts.{value_in, entry_in, CanGoTo};
ghost use Rattle.spv_dictionary.specs.pivoting.Stepping.{IsStepping, IsTested, AreStepped, IsMade};
ghost use Rattle.spv_dictionary.specs.pivoting.Stepping as spec;

use crate::Dictionary;
use crate::checked_numbers::{Number, Refused};

// How far the column of a slot has to go, for that of a row to reach a bound.
fn shift_of(
    dictionary: &Dictionary,
    values: &[Number],
    row: usize,
    slot: usize,
    bound: Number,
) -> Result<Number, Refused>
    requires count { length values.now ≡ length dictionary.now.spots }
    requires row { row < length dictionary.now.basic }
    requires slot { slot < length dictionary.now.outside }
    requires nonzero { is_zero (entry_in dictionary.now row slot) ≡ false }
    ensures value { IfOk result (λ n. n ≡ spec.shift_of dictionary.now values.now row slot bound) }
    ensures refused { IfErr result (λ o. IsStepping dictionary.now values.now row slot bound o) }
    ensures unfit { IfErr result (λ o. fits o ≡ false) }
{
    dictionary.law_dictionary();
    let value = values[dictionary.basic(row) as usize];
    match bound.sub(value) {
        Ok(distance) => distance.div(dictionary.row(row).get(slot)),
        Err(refused) => Err(refused),
    }
}

// How far the column of a slot goes, and its value then.
#[derive(Clone, Copy, Debug)]
pub struct Shifted {
    shift: Number,
    next: Number,
}

// Where the column of a slot goes.
fn next_of(
    dictionary: &Dictionary,
    values: &[Number],
    row: usize,
    slot: usize,
    bound: Number,
) -> Result<Shifted, Refused>
    requires count { length values.now ≡ length dictionary.now.spots }
    requires row { row < length dictionary.now.basic }
    requires slot { slot < length dictionary.now.outside }
    requires nonzero { is_zero (entry_in dictionary.now row slot) ≡ false }
    ensures shift { IfOk result (λ s. s.shift ≡ spec.shift_of dictionary.now values.now row slot bound) }
    ensures next { IfOk result (λ s. s.next ≡ plus (value_in values.now (outside_at dictionary.now slot)) s.shift) }
    ensures refused { IfErr result (λ o. IsStepping dictionary.now values.now row slot bound o) }
    ensures unfit { IfErr result (λ o. fits o ≡ false) }
{
    dictionary.law_dictionary();
    match shift_of(dictionary, values, row, slot, bound) {
        Ok(shift) => {
            let value = values[dictionary.outside(slot) as usize];
            match value.add(shift) {
                Ok(next) => Ok(Shifted { shift, next }),
                Err(refused) => Err(refused),
            }
        }
        Err(refused) => Err(refused),
    }
}

// Whether all operations of a step fit. The solved form and the values stay as they are.
fn test(
    dictionary: &mut Dictionary,
    values: &[Number],
    row: usize,
    slot: usize,
    bound: Number,
) -> Result<Shifted, Refused>
    requires count { length values.now ≡ length dictionary.old.spots }
    requires row { row < length dictionary.old.basic }
    requires slot { slot < length dictionary.old.outside }
    requires nonzero { is_zero (entry_in dictionary.old row slot) ≡ false }
    ensures same { dictionary.new ≡ with_solved dictionary.old dictionary.new.solved }
    ensures tested { IfOk result (λ s. IsTested dictionary.old values.now row slot bound dictionary.new s.shift s.next) }
    ensures refused { IfErr result (λ o. IsStepping dictionary.old values.now row slot bound o) }
    ensures unfit { IfErr result (λ o. fits o ≡ false) }
{
    match next_of(dictionary, values, row, slot, bound) {
        Ok(shifted) => match crate::updates::test(dictionary, values, slot, shifted.shift, row) {
            Ok(()) => match dictionary.test(row, slot) {
                Ok(()) => Ok(shifted),
                Err(refused) => Err(refused),
            },
            Err(refused) => Err(refused),
        },
        Err(refused) => Err(refused),
    }
}

// Makes the values of a step, after it was tested.
fn move_values(
    dictionary: &Dictionary,
    values: &mut [Number],
    row: usize,
    slot: usize,
    bound: Number,
    shifted: Shifted,
)
    requires count { length values.old ≡ length dictionary.now.spots }
    requires row { row < length dictionary.now.basic }
    requires slot { slot < length dictionary.now.outside }
    requires next { shifted.next ≡ plus (value_in values.old (outside_at dictionary.now slot)) shifted.shift }
    requires can { CanGoTo dictionary.now values.old slot shifted.shift row (length dictionary.now.basic) }
    ensures { AreStepped dictionary.now values.old row slot bound shifted.shift values.new }
{
    dictionary.law_dictionary();
    crate::updates::shift(dictionary, values, slot, shifted.shift, row);
    values[dictionary.basic(row) as usize] = bound;
    values[dictionary.outside(slot) as usize] = shifted.next;
}

/// The column of a row goes to a bound, and that of a slot enters for it. Where something does not fit, all
/// stays as it is.
pub fn step(
    dictionary: &mut Dictionary,
    values: &mut [Number],
    row: usize,
    slot: usize,
    bound: Number,
) -> Result<(), Refused>
    requires count { length values.old ≡ length dictionary.old.spots }
    requires row { row < length dictionary.old.basic }
    requires slot { slot < length dictionary.old.outside }
    requires nonzero { is_zero (entry_in dictionary.old row slot) ≡ false }
    ensures made { OnOk result (IsMade dictionary.old values.old row slot bound dictionary.new values.new) }
    ensures form { OnErr result (dictionary.new ≡ with_solved dictionary.old dictionary.new.solved) }
    ensures values { OnErr result (values.new ≡ values.old) }
    ensures refused { IfErr result (λ o. IsStepping dictionary.old values.old row slot bound o) }
    ensures unfit { IfErr result (λ o. fits o ≡ false) }
{
    match test(dictionary, values, row, slot, bound) {
        Ok(shifted) => {
            move_values(dictionary, values, row, slot, bound, shifted);
            dictionary.exchange(row, slot);
            Ok(())
        }
        Err(refused) => Err(refused),
    }
}
