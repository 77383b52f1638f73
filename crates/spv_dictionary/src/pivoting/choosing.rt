// Which column leaves the basis.

ghost use Rattle.std.specs.Prelude.{◌≡◌, ◌+◌, ◌<◌, true, false, length, take, None, IfOk, IfErr, IfSome, IfNone, IsTrue};
ghost use Rattle.spv_frac.specs.declared.frac.Op.TheVariants.{Cmp};
ghost use Rattle.spv_tableau_rules.specs.declared.tableaux.side.Side.TheVariants.{Lower, Upper};
ghost use Rattle.spv_tableau_rules.specs.tableaux.Bounds.{breaks, breaks_limit};
ghost use Rattle.spv_tableau_rules.specs.tableaux.Steps.{none_to, may_leave};
ghost use Rattle.spv_tableau_rules.specs.tableaux.Operations.{operation, fits, Compares};
ghost use Rattle.spv_dictionary.specs.Dictionary.{places};
ghost use Rattle.spv_dictionary.specs.updates.Shifts.{value_in};
ghost use Rattle.spv_dictionary.specs.pivoting.Choosing.{limits_of, are_met, broken_side, IsComparing, IsLeaving, leaves_by, LeavesNext, IsBoundAt};

use crate::checked_numbers::{Number, Refused};
use crate::pivoting::trail::{Standing, Trail};
use crate::{Dictionary, Spot};
use spv_tableau_rules::tableaux::Side;

// Whether a value breaks a bound.
fn is_broken(bound: Standing, value: Number) -> Result<bool, Refused>
    ensures value { IfOk result (λ b. b ≡ breaks bound.side bound.value value) }
    ensures refused { IfErr result (λ o. o ≡ operation Cmp value bound.value) }
    ensures unfit { IfErr result (λ o. fits o ≡ false) }
{
    match bound.side() {
        Side::Lower => value.is_less(bound.value()),
        Side::Upper => value.is_greater(bound.value()),
    }
}

/// A column in the basis that is out of its bounds: its row, the side that it breaks, and its bound there.
#[derive(Clone, Copy, Debug)]
pub struct Chosen {
    /// The column.
    pub column: usize,
    /// The row whose sum it is.
    pub row: usize,
    /// The side that it breaks.
    pub side: Side,
    /// Its bound there.
    pub bound: Number,
}

// Whether a column was found that is at most this one.
fn is_found(found: &Option<Chosen>, column: usize) -> bool
    ensures { result ≡ leaves_by found.now column }
{
    match found {
        Some(chosen) => chosen.column <= column,
        None => false,
    }
}

// What is found with one bound more.
fn next(
    dictionary: &Dictionary,
    values: &[Number],
    trail: &Trail,
    place: usize,
    found: Option<Chosen>,
) -> Result<Option<Chosen>, Refused>
    requires count { length values.now ≡ length dictionary.now.spots }
    requires rows { trail.now.rows ≡ length dictionary.now.basic }
    requires place { place < length trail.now.bounds }
    ensures value { IfOk result (λ r. IsBoundAt trail.now.bounds place
        (λ b. LeavesNext (limits_of (length dictionary.now.outside) trail.now.bounds) dictionary.now (value_in values.now) b found r)) }
    ensures refused { IfErr result (λ o. Compares (limits_of (length dictionary.now.outside) trail.now.bounds) (value_in values.now) o) }
    ensures unfit { IfErr result (λ o. fits o ≡ false) }
{
    dictionary.law_dictionary();
    trail.law_trail();
    let bound = trail.get(place);
    let column = dictionary.slots() + bound.row();
    if is_found(&found, column) {
        return Ok(found);
    }
    match dictionary.spot(column) {
        Spot::Slot(_) => Ok(found),
        Spot::Row(row) => match is_broken(bound, values[column]) {
            Ok(true) => Ok(Some(Chosen {
                column,
                row,
                side: bound.side(),
                bound: bound.value(),
            })),
            Ok(false) => Ok(found),
            Err(refused) => Err(refused),
        },
    }
}

/// The least column of the basis that is out of its bounds. Only the bounds that stand are looked at.
pub fn leaving(
    dictionary: &Dictionary,
    values: &[Number],
    trail: &Trail,
) -> Result<Option<Chosen>, Refused>
    requires count { length values.now ≡ length dictionary.now.spots }
    requires rows { trail.now.rows ≡ length dictionary.now.basic }
    ensures some { IfOk result (λ r. IfSome r (IsLeaving (limits_of (length dictionary.now.outside) trail.now.bounds) dictionary.now (value_in values.now))) }
    ensures none { IfOk result (λ r. IfNone r (none_to (length dictionary.now.spots)
        (may_leave (limits_of (length dictionary.now.outside) trail.now.bounds) (places dictionary.now) (value_in values.now)) ≡ true)) }
    ensures refused { IfErr result (λ o. Compares (limits_of (length dictionary.now.outside) trail.now.bounds) (value_in values.now) o) }
    ensures unfit { IfErr result (λ o. fits o ≡ false) }
{
    let mut found = None;
    for place in 0..trail.len() {
        match next(dictionary, values, trail, place, found) {
            Ok(next) => found = next,
            Err(refused) => return Err(refused),
        }
    }
    Ok(found)
}

// Whether a value meets a bound; a bound that cannot be compared is taken as one that is not met.
fn is_met(bound: Standing, value: Number) -> bool
    ensures { IsTrue result → breaks bound.side bound.value value ≡ false }
{
    match is_broken(bound, value) {
        Ok(broken) => !broken,
        Err(_) => false,
    }
}

/// Whether the values meet all bounds, where the first ones are known to be met. Where some cannot be compared it
/// answers that they do not.
pub fn all_met(width: usize, values: &[Number], trail: &Trail, known: usize) -> bool
    requires count { length values.now ≡ width + trail.now.rows }
    requires known { are_met width (value_in values.now) (take known trail.now.bounds) ≡ true }
    ensures { IsTrue result → are_met width (value_in values.now) trail.now.bounds ≡ true }
{
    for place in known..trail.len() {
        let bound = trail.get(place);
        if !is_met(bound, values[width + bound.row()]) {
            return false;
        }
    }
    true
}

// ---- the side that a column breaks

// Whether a value is below its lower bound.
fn is_below(lower: Option<Number>, value: Number) -> Result<bool, Refused>
    ensures value { IfOk result (λ b. b ≡ breaks_limit Lower lower value) }
    ensures refused { IfErr result (λ o. IsComparing lower None value o) }
    ensures unfit { IfErr result (λ o. fits o ≡ false) }
{
    match lower {
        Some(bound) => value.is_less(bound),
        None => Ok(false),
    }
}

// Whether a value is above its upper bound.
fn is_above(upper: Option<Number>, value: Number) -> Result<bool, Refused>
    ensures value { IfOk result (λ b. b ≡ breaks_limit Upper upper value) }
    ensures refused { IfErr result (λ o. IsComparing None upper value o) }
    ensures unfit { IfErr result (λ o. fits o ≡ false) }
{
    match upper {
        Some(bound) => value.is_greater(bound),
        None => Ok(false),
    }
}

/// The side of its bounds that a value breaks.
pub fn broken(
    lower: Option<Number>,
    upper: Option<Number>,
    value: Number,
) -> Result<Option<Side>, Refused>
    ensures value { IfOk result (λ s. s ≡ broken_side lower upper value) }
    ensures refused { IfErr result (λ o. IsComparing lower upper value o) }
    ensures unfit { IfErr result (λ o. fits o ≡ false) }
{
    match is_below(lower, value) {
        Ok(true) => return Ok(Some(Side::Lower)),
        Ok(false) => {}
        Err(refused) => return Err(refused),
    }
    match is_above(upper, value) {
        Ok(true) => Ok(Some(Side::Upper)),
        Ok(false) => Ok(None),
        Err(refused) => Err(refused),
    }
}
