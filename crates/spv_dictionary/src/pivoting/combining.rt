// The combination of bounds that a stuck column is read as.

ghost use Rattle.std.specs.Prelude.{◌≡◌, ◌+◌, ◌<◌, ◌^◌, ◌++◌, ◌≤◌, length, map, slice_index_or, vec_len, vec_capacity, IfSome, IfNone};
ghost use Rattle.spv_frac.specs.rational.Rational.{is_zero};
ghost use Rattle.spv_tableau_rules.specs.tableaux.Contradictions.{signed};
ghost use Rattle.spv_tableau_rules.specs.tableaux.Bounds.{other_side};
ghost use Rattle.spv_dictionary.specs.Dictionary.{entries, spot_of, basic_at};
ghost use Rattle.spv_tableau_rules.specs.pivots.Moved.{turned, multiples_at};
ghost use Rattle.spv_dictionary.specs.pivoting.Combining.{multiple_in, multiples_in};

use crate::checked_numbers::Number;
use crate::{Dictionary, Spot};
use spv_frac::Frac;
use spv_tableau_rules::tableaux::Side;

// The entry of two columns, of which the first is in the basis for a row.
fn entry(dictionary: &Dictionary, row: usize, column: usize) -> Number
    requires row { row < length dictionary.now.basic }
    requires column { column < length dictionary.now.spots }
    ensures { result ≡ entries dictionary.now (slice_index_or dictionary.now.basic row 0) column }
{
    dictionary.law_dictionary();
    match dictionary.spot(column) {
        Spot::Slot(slot) => dictionary.row(row).get(slot),
        Spot::Row(other) => {
            if other == row {
                Number::whole(-1)
            } else {
                Number::whole(0)
            }
        }
    }
}

// With the sign by which the sum of a column that breaks this side is at most 0.
fn turn(side: Side, entry: Number) -> Number
    ensures { result ≡ signed (other_side side) entry }
{
    match side {
        Side::Lower => entry,
        Side::Upper => entry.neg(),
    }
}

// A multiple of a bound on a row, as contracts see it.
fn multiple(row: u32, side: Side, factor: Number) -> (u32, Side, Frac)
    ensures { multiple_in result ≡ record { row = row; side = side; factor = factor } }
{
    (row, side, factor.frac())
}

// A row times its entry, if that is not 0.
fn add(into: &mut Vec<(u32, Side, Frac)>, row: u32, entry: Number)
    requires room { length into.old.items < vec_capacity into.old }
    ensures items { map multiple_in into.new.items ≡ map multiple_in into.old.items ++ multiples_at row entry }
    ensures length { length into.new.items ≤ length into.old.items + 1 }
    ensures capacity { vec_capacity into.old ≤ vec_capacity into.new }
{
    if entry.is_zero() {
        return;
    }
    let one = if entry.is_positive() {
        multiple(row, Side::Upper, entry)
    } else {
        multiple(row, Side::Lower, entry.neg())
    };
    into.push(one).unwrap();
}

/// The multiples of the bounds on all rows that a stuck column is read as.
pub fn combine(dictionary: &Dictionary, into: &mut Vec<(u32, Side, Frac)>, row: usize, side: Side)
    requires row { row < length dictionary.now.basic }
    requires few { length dictionary.now.spots < 2 ^ 32 }
    requires room { length dictionary.now.basic ≤ vec_capacity into.old }
    ensures items { map multiple_in into.new.items ≡ multiples_in dictionary.now (length dictionary.now.outside) (basic_at dictionary.now row) side (length dictionary.now.basic) }
    ensures capacity { vec_capacity into.old ≤ vec_capacity into.new }
{
    dictionary.law_dictionary();
    into.clear();
    for other in 0..dictionary.rows() {
        let column = dictionary.slots() + other;
        add(
            into,
            other as u32,
            turn(side, entry(dictionary, row, column)),
        );
    }
}
