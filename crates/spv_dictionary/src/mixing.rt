// The exchange of a row's column with that of a slot, on the numbers. It is computed twice: first only to see
// that all of it fits, and then to keep it.

ghost use Rattle.std.specs.Prelude.{◌≡◌, ℕ, Bool, true, false, ◌<◌, ◌↔◌, length, nat_eq, slice_set, IsOk, IfOk, IfErr, OnOk};
ghost use Rattle.spv_frac.specs.rational.Rational.{is_zero};
ghost use Rattle.spv_tableau_rules.specs.tableaux.Operations.{fits};
ghost use Rattle.spv_dictionary.specs.Cells.{cell};
ghost use Rattle.spv_dictionary.specs.Exchanges.{solved_at};
ghost use Rattle.spv_dictionary.specs.Mixing as spec;
ghost use Rattle.spv_dictionary.specs.Mixing.{can_mix, IsMixing, IsSolving, IsRowMixing, IsSolved, IsMixed, CanMixRow, CanMixRows, AreMixedTo, AreWide, IsMixedAt, IsMixedRow, IsRowsMixing, IsExchanging, number_row, is_idle};

use crate::checked_numbers::{Number, Refused};
use crate::row::Row;
use std::mem;

// A number of the row that is solved for the column of a slot.
fn solved(row: &Row, slot: usize, place: usize) -> Result<Number, Refused>
    requires slot { slot < length row.now }
    requires place { place < length row.now }
    requires nonzero { is_zero (cell row.now slot) ≡ false }
    ensures value { IfOk result (λ n. n ≡ solved_at row.now slot place) }
    ensures refused { IfErr result (λ o. IsSolving row.now slot o) }
    ensures unfit { IfErr result (λ o. fits o ≡ false) }
{
    if place == slot {
        return Number::whole(1).div(row.get(slot));
    }
    match row.get(place).div(row.get(slot)) {
        Ok(quotient) => Ok(quotient.neg()),
        Err(refused) => Err(refused),
    }
}

// The row that is solved for the column of a slot.
fn solve(row: &Row, slot: usize, into: &mut Row) -> Result<(), Refused>
    requires slot { slot < length row.now }
    requires nonzero { is_zero (cell row.now slot) ≡ false }
    requires room { length into.old ≡ length row.now }
    ensures ok { OnOk result (IsSolved row.now into.new slot) }
    ensures count { length into.new ≡ length into.old }
    ensures refused { IfErr result (λ o. IsSolving row.now slot o) }
    ensures unfit { IfErr result (λ o. fits o ≡ false) }
{
    for place in 0..row.len() {
        match solved(row, slot, place) {
            Ok(number) => into.set(place, number),
            Err(refused) => return Err(refused),
        }
    }
    Ok(())
}

// A number, and what a solved number times a factor adds to it.
fn mixed(is_slot: bool, number: Number, solved: Number, factor: Number) -> Result<Number, Refused>
    ensures fits { IsOk result ↔ (can_mix is_slot number solved factor ≡ true) }
    ensures value { IfOk result (λ n. n ≡ spec.mixed is_slot number solved factor) }
    ensures refused { IfErr result (λ o. IsMixing is_slot number solved factor o) }
    ensures unfit { IfErr result (λ o. fits o ≡ false) }
{
    match solved.mul(factor) {
        Ok(product) => {
            if is_slot {
                return Ok(product);
            }
            number.add(product)
        }
        Err(refused) => Err(refused),
    }
}

// Whether a place of a row can be mixed.
fn test_place(row: &Row, solved: &Row, slot: usize, place: usize) -> Result<(), Refused>
    requires slot { slot < length row.now }
    requires place { place < length row.now }
    requires width { length solved.now ≡ length row.now }
    ensures ok { OnOk result (is_idle (nat_eq place slot) (cell solved.now place) ≡ false
        → can_mix (nat_eq place slot) (cell row.now place) (cell solved.now place) (cell row.now slot) ≡ true) }
    ensures refused { IfErr result (λ o. IsMixing (nat_eq place slot) (cell row.now place) (cell solved.now place) (cell row.now slot) o) }
    ensures unfit { IfErr result (λ o. fits o ≡ false) }
{
    let is_slot = place == slot;
    if !is_slot && solved.get(place).is_zero() {
        return Ok(());
    }
    match mixed(is_slot, row.get(place), solved.get(place), row.get(slot)) {
        Ok(_) => Ok(()),
        Err(refused) => Err(refused),
    }
}

// Whether a solved row can be put into another one.
fn test_row(row: &Row, solved: &Row, slot: usize) -> Result<(), Refused>
    requires slot { slot < length row.now }
    requires width { length solved.now ≡ length row.now }
    ensures ok { OnOk result (CanMixRow row.now solved.now slot) }
    ensures refused { IfErr result (λ o. IsRowMixing row.now solved.now slot o) }
    ensures unfit { IfErr result (λ o. fits o ≡ false) }
{
    if row.get(slot).is_zero() {
        return Ok(());
    }
    for place in 0..row.len() {
        match test_place(row, solved, slot, place) {
            Ok(()) => {}
            Err(refused) => return Err(refused),
        }
    }
    Ok(())
}

// Mixes a place of a row.
fn mix_place(row: &mut Row, solved: &Row, slot: usize, factor: Number, place: usize)
    requires place { place < length row.old }
    requires width { length solved.now ≡ length row.old }
    requires can { is_idle (nat_eq place slot) (cell solved.now place) ≡ false
        → can_mix (nat_eq place slot) (cell row.old place) (cell solved.now place) factor ≡ true }
    ensures { IsMixedAt row.old solved.now slot place factor row.new }
{
    let is_slot = place == slot;
    if !is_slot && solved.get(place).is_zero() {
        return;
    }
    let number = mixed(is_slot, row.get(place), solved.get(place), factor).unwrap();
    row.set(place, number);
}

// Puts a solved row into another one.
fn mix_row(row: &mut Row, solved: &Row, slot: usize)
    requires slot { slot < length row.old }
    requires width { length solved.now ≡ length row.old }
    requires can { CanMixRow row.old solved.now slot }
    ensures { IsMixed row.old solved.now slot row.new }
{
    let factor = row.get(slot);
    if factor.is_zero() {
        return;
    }
    for place in 0..row.len() {
        mix_place(row, solved, slot, factor, place);
    }
}

// Whether a solved row can be put into one row, if that is another one.
fn test_other(
    rows: &[Row],
    solved: &Row,
    here: usize,
    slot: usize,
    row: usize,
) -> Result<(), Refused>
    requires wide { AreWide rows.now (length solved.now) }
    requires slot { slot < length solved.now }
    requires row { row < length rows.now }
    ensures ok { OnOk result (nat_eq row here ≡ false → CanMixRow (number_row rows.now row) solved.now slot) }
    ensures refused { IfErr result (λ o. IsRowsMixing rows.now solved.now here slot o) }
    ensures unfit { IfErr result (λ o. fits o ≡ false) }
{
    if row == here {
        return Ok(());
    }
    test_row(&rows[row], solved, slot)
}

// Whether a solved row can be put into all rows but one.
fn test_rows(rows: &[Row], solved: &Row, here: usize, slot: usize) -> Result<(), Refused>
    requires wide { AreWide rows.now (length solved.now) }
    requires slot { slot < length solved.now }
    ensures ok { OnOk result (CanMixRows rows.now solved.now here slot) }
    ensures refused { IfErr result (λ o. IsRowsMixing rows.now solved.now here slot o) }
    ensures unfit { IfErr result (λ o. fits o ≡ false) }
{
    for row in 0..rows.len() {
        match test_other(rows, solved, here, slot, row) {
            Ok(()) => {}
            Err(refused) => return Err(refused),
        }
    }
    Ok(())
}

// Puts a solved row into one row, if that is another one.
fn mix_other(rows: &mut [Row], solved: &Row, here: usize, slot: usize, row: usize)
    requires width { length (number_row rows.old row) ≡ length solved.now }
    requires slot { slot < length solved.now }
    requires row { row < length rows.old }
    requires can { nat_eq row here ≡ false → CanMixRow (number_row rows.old row) solved.now slot }
    ensures { IsMixedRow rows.old solved.now here slot row rows.new }
{
    if row == here {
        return;
    }
    mix_row(&mut rows[row], solved, slot);
}

// Puts a solved row into all rows but one.
fn mix_rows(rows: &mut [Row], solved: &Row, here: usize, slot: usize)
    requires wide { AreWide rows.old (length solved.now) }
    requires slot { slot < length solved.now }
    requires can { CanMixRows rows.old solved.now here slot }
    ensures { AreMixedTo rows.old solved.now here slot (length rows.old) rows.new }
{
    for row in 0..rows.len() {
        mix_other(rows, solved, here, slot, row);
    }
}

// Whether a row can be solved for the column of a slot, and put into all others. The solved row is what
// another row holds then.
pub(crate) fn test(rows: &[Row], solved: &mut Row, row: usize, slot: usize) -> Result<(), Refused>
    requires wide { AreWide rows.now (length solved.old) }
    requires slot { slot < length solved.old }
    requires row { row < length rows.now }
    requires nonzero { is_zero (cell (number_row rows.now row) slot) ≡ false }
    ensures count { length solved.new ≡ length solved.old }
    ensures solved { OnOk result (IsSolved (number_row rows.now row) solved.new slot) }
    ensures ok { OnOk result (CanMixRows rows.now solved.new row slot) }
    ensures refused { IfErr result (λ o. IsExchanging rows.now solved.new row slot o) }
    ensures unfit { IfErr result (λ o. fits o ≡ false) }
{
    match solve(&rows[row], slot, solved) {
        Ok(()) => {}
        Err(refused) => return Err(refused),
    }
    test_rows(rows, solved, row, slot)
}

// Puts the solved row into all others, and exchanges it with the row that it was made of.
pub(crate) fn exchange(rows: &mut Vec<Row>, solved: &mut Row, row: usize, slot: usize)
    requires wide { AreWide rows.old.items (length solved.old) }
    requires slot { slot < length solved.old }
    requires row { row < length rows.old.items }
    requires can { CanMixRows rows.old.items solved.old row slot }
    ensures mixed { (kept : _) × AreMixedTo rows.old.items solved.old row slot (length rows.old.items) kept × (rows.new.items ≡ slice_set kept row solved.old) }
    ensures out { length solved.new ≡ length solved.old }
{
    mix_rows(rows.as_mut_slice(), solved, row, slot);
    mem::swap(&mut rows[row], solved);
}
