// Which column enters the basis.

ghost use Rattle.std.specs.Prelude.{◌≡◌, ◌+◌, ◌<◌, true, false, length, IfOk, IfErr, IfSome, IfNone};
ghost use Rattle.spv_tableau_rules.specs.tableaux.Bounds as bounds;
ghost use Rattle.spv_tableau_rules.specs.tableaux.Steps as steps;
ghost use Rattle.spv_tableau_rules.specs.tableaux.Steps.{none_to, may_enter};
ghost use Rattle.spv_tableau_rules.specs.tableaux.Operations.{fits, Compares};
ghost use Rattle.spv_dictionary.specs.Dictionary.{basic_at, entries, places};
ghost use Rattle.spv_dictionary.specs.updates.Shifts.{value_in};
ghost use Rattle.spv_dictionary.specs.pivoting.Choosing.{limits_of, IsComparing, IsEntering, enters_by, EntersNext, slot_may_enter};

use crate::checked_numbers::{Number, Refused};
use crate::pivoting::trail::Trail;
use crate::{Dictionary, Spot};
use spv_tableau_rules::tableaux::Side;

// Whether a value may go on towards a side.
fn has_room(side: Side, bound: Option<Number>, value: Number) -> Result<bool, Refused>
    ensures value { IfOk result (λ b. b ≡ bounds.has_room side bound value) }
    ensures refused { IfErr result (λ o. IsComparing bound bound value o) }
    ensures unfit { IfErr result (λ o. fits o ≡ false) }
{
    match bound {
        None => Ok(true),
        Some(bound) => match side {
            Side::Lower => value.is_greater(bound),
            Side::Upper => value.is_less(bound),
        },
    }
}

// The side towards which a column with this entry has to move.
fn way(side: Side, entry: Number) -> Side
    ensures { result ≡ steps.way side entry }
{
    if !entry.is_positive() {
        return side;
    }
    match side {
        Side::Lower => Side::Upper,
        Side::Upper => Side::Lower,
    }
}

/// The bound on a side of a column, behind so many parts.
pub fn limit(trail: &Trail, width: usize, column: usize, side: Side) -> Option<Number>
    requires { column < width + trail.now.rows }
    ensures { result ≡ limits_of width trail.now.bounds column side }
{
    if column < width {
        return None;
    }
    trail.bound(column - width, side)
}

// Whether the column of a slot may enter for that of a row.
fn is_admitted(
    dictionary: &Dictionary,
    values: &[Number],
    trail: &Trail,
    row: usize,
    side: Side,
    slot: usize,
) -> Result<bool, Refused>
    requires count { length values.now ≡ length dictionary.now.spots }
    requires rows { trail.now.rows ≡ length dictionary.now.basic }
    requires row { row < length dictionary.now.basic }
    requires slot { slot < length dictionary.now.outside }
    ensures value { IfOk result (λ b. b ≡ slot_may_enter (limits_of (length dictionary.now.outside) trail.now.bounds) dictionary.now (value_in values.now) row side slot) }
    ensures refused { IfErr result (λ o. Compares (limits_of (length dictionary.now.outside) trail.now.bounds) (value_in values.now) o) }
    ensures unfit { IfErr result (λ o. fits o ≡ false) }
{
    dictionary.law_dictionary();
    let entry = dictionary.row(row).get(slot);
    if entry.is_zero() {
        return Ok(false);
    }
    let column = dictionary.outside(slot) as usize;
    let way = way(side, entry);
    let bound = limit(trail, dictionary.slots(), column, way);
    has_room(way, bound, values[column])
}

/// The column that enters the basis, and its slot.
#[derive(Clone, Copy, Debug)]
pub struct Entry {
    /// The column.
    pub column: usize,
    /// The slot that it leaves to the other one.
    pub slot: usize,
}

// Whether a column was found that is at most this one.
fn is_found(found: &Option<Entry>, column: usize) -> bool
    ensures { result ≡ enters_by found.now column }
{
    match found {
        Some(entry) => entry.column <= column,
        None => false,
    }
}

// What is found with one slot more.
fn next(
    dictionary: &Dictionary,
    values: &[Number],
    trail: &Trail,
    row: usize,
    side: Side,
    slot: usize,
    found: Option<Entry>,
) -> Result<Option<Entry>, Refused>
    requires count { length values.now ≡ length dictionary.now.spots }
    requires rows { trail.now.rows ≡ length dictionary.now.basic }
    requires row { row < length dictionary.now.basic }
    requires slot { slot < length dictionary.now.outside }
    ensures value { IfOk result (λ r. EntersNext (limits_of (length dictionary.now.outside) trail.now.bounds) dictionary.now (value_in values.now) row side slot found r) }
    ensures refused { IfErr result (λ o. Compares (limits_of (length dictionary.now.outside) trail.now.bounds) (value_in values.now) o) }
    ensures unfit { IfErr result (λ o. fits o ≡ false) }
{
    dictionary.law_dictionary();
    let column = dictionary.outside(slot) as usize;
    if is_found(&found, column) {
        return Ok(found);
    }
    match is_admitted(dictionary, values, trail, row, side, slot) {
        Ok(true) => Ok(Some(Entry { column, slot })),
        Ok(false) => Ok(found),
        Err(refused) => Err(refused),
    }
}

/// The least column outside the basis that may enter for the column of a row. Only the row's own slots are looked
/// at, and bounds only where its number is not 0.
pub fn entering(
    dictionary: &Dictionary,
    values: &[Number],
    trail: &Trail,
    row: usize,
    side: Side,
) -> Result<Option<Entry>, Refused>
    requires count { length values.now ≡ length dictionary.now.spots }
    requires rows { trail.now.rows ≡ length dictionary.now.basic }
    requires row { row < length dictionary.now.basic }
    ensures some { IfOk result (λ r. IfSome r (IsEntering (limits_of (length dictionary.now.outside) trail.now.bounds) dictionary.now (value_in values.now) row side)) }
    ensures none { IfOk result (λ r. IfNone r (none_to (length dictionary.now.spots)
        (may_enter (limits_of (length dictionary.now.outside) trail.now.bounds) (places dictionary.now) (value_in values.now) (entries dictionary.now) (basic_at dictionary.now row) side) ≡ true)) }
    ensures refused { IfErr result (λ o. Compares (limits_of (length dictionary.now.outside) trail.now.bounds) (value_in values.now) o) }
    ensures unfit { IfErr result (λ o. fits o ≡ false) }
{
    dictionary.law_dictionary();
    let mut found = None;
    for slot in 0..dictionary.slots() {
        match next(dictionary, values, trail, row, side, slot, found) {
            Ok(next) => found = next,
            Err(refused) => return Err(refused),
        }
    }
    Ok(found)
}
