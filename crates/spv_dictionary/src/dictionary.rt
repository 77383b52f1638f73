// Solved forms as rows of numbers.

ghost use Rattle.std.specs.Prelude.{◌≡◌, ℕ, ◌<◌, ◌+◌, ◌^◌, ◌++◌, [], length, slice_index_or, slice_set, false, IfOk, IfErr, OnOk};
ghost use Rattle.spv_dictionary.specs.Cells.{cell};
ghost use Rattle.spv_frac.specs.rational.Rational.{is_zero};
ghost use Rattle.spv_tableau_rules.specs.tableaux.Operations.{fits};
ghost use Rattle.spv_dictionary.specs.declared.spot.Spot.TheVariants as at;
ghost use Rattle.spv_dictionary.specs.Exchanges.{IsExchanged};
ghost use Rattle.spv_dictionary.specs.Mixing.{IsReady, IsRefused};
ghost use Rattle.spv_dictionary.specs.Dictionary.{with_solved, IsDictionary, first, spot_of, basic_at, outside_at, row_at, slots_to, rows_to};
ghost use Rattle.spv_dictionary.specs.Cells.{numbers_from};

use crate::checked_numbers::Refused;
use crate::mixing;
use crate::row::Row;
use crate::spot::Spot;
use std::alloc::{AllocError, Global};
use std::marker::Model;

/// A solved form: a row for each column in the basis, whose sum it is, and in it a slot for each column
/// outside the basis.
#[derive(Debug, Drop)]
pub struct Dictionary {
    spots: Vec<Spot>,
    basic: Vec<u32>,
    outside: Vec<u32>,
    rows: Vec<Row>,
    // What a row would be after an exchange that is being tested.
    solved: Row,
}

impl Model for Dictionary {
    ghost use Rattle.spv_dictionary.specs.Dictionary.{Dictionary, IsDictionary};

    ghost Value = { Dictionary };

    ghost view = { λ d. record { spots = d.spots.items; basic = d.basic.items; outside = d.outside.items; cells = d.rows.items; solved = d.solved } };

    ghost invariant = { λ d. IsDictionary (record { spots = d.spots.items; basic = d.basic.items; outside = d.outside.items; cells = d.rows.items; solved = d.solved }) };
}

impl Dictionary {
    /// What is true of every dictionary.
    pub fn law_dictionary(&self)
        ensures { IsDictionary self.now }
    {
        let _spots = &self.spots;
    }

    /// How many columns there are.
    pub fn columns(&self) -> usize
        ensures { result ≡ length self.now.spots }
    {
        self.spots.len()
    }

    /// How many rows there are.
    pub fn rows(&self) -> usize
        ensures { result ≡ length self.now.basic }
    {
        self.basic.len()
    }

    /// How many slots each row has.
    pub fn slots(&self) -> usize
        ensures { result ≡ length self.now.outside }
    {
        self.outside.len()
    }

    /// Where a column is.
    pub fn spot(&self, column: usize) -> Spot
        requires { column < length self.now.spots }
        ensures { result ≡ spot_of self.now column }
    {
        self.spots[column]
    }

    /// The column of a row.
    pub fn basic(&self, row: usize) -> u32
        requires { row < length self.now.basic }
        ensures { result ≡ basic_at self.now row }
    {
        self.basic[row]
    }

    /// The column of a slot.
    pub fn outside(&self, slot: usize) -> u32
        requires { slot < length self.now.outside }
        ensures { result ≡ outside_at self.now slot }
    {
        self.outside[slot]
    }

    /// The columns of the rows.
    pub fn basis(&self) -> &[u32]
        ensures { result.now ≡ self.now.basic }
    {
        self.basic.as_slice()
    }

    /// The columns of the slots.
    pub fn others(&self) -> &[u32]
        ensures { result.now ≡ self.now.outside }
    {
        self.outside.as_slice()
    }

    /// The numbers of a row.
    pub fn row(&self, row: usize) -> &Row
        requires { row < length self.now.basic }
        ensures { result.now ≡ row_at self.now row }
    {
        &self.rows[row]
    }

    /// The rows with the columns that come behind those of the slots in the basis.
    pub fn start(alloc: Global, width: usize, rows: Vec<Row>) -> Result<Dictionary, AllocError>
        requires widths { (i : ℕ) → i < length rows.items → length (slice_index_or rows.items i []) ≡ width }
        requires few { width + length rows.items < 2 ^ 32 }
        ensures { IfOk result (λ d. d ≡ first width rows.items) }
    {
        let count = rows.as_slice().len();
        let spots = spots(alloc, width, count)?;
        let basic = numbers(alloc, width as u32, count as u32)?;
        let outside = numbers(alloc, 0, width as u32)?;
        let solved = Row::zeros(alloc, width)?;
        Ok(Dictionary {
            spots,
            basic,
            outside,
            rows,
            solved,
        })
    }

    /// Tests whether the column of a row can be exchanged with that of a slot. The solved form stays as it is.
    pub fn test(&mut self, row: usize, slot: usize) -> Result<(), Refused>
        requires row { row < length self.old.basic }
        requires slot { slot < length self.old.outside }
        requires nonzero { is_zero (cell (row_at self.old row) slot) ≡ false }
        ensures same { self.new ≡ with_solved self.old self.new.solved }
        ensures ok { OnOk result (IsReady self.new row slot) }
        ensures refused { IfErr result (λ o. IsRefused self.old row slot o) }
        ensures unfit { IfErr result (λ o. fits o ≡ false) }
    {
        mixing::test(self.rows.as_slice(), &mut self.solved, row, slot)
    }

    /// Exchanges the column of a row with that of a slot, after this was tested.
    pub fn exchange(&mut self, row: usize, slot: usize)
        requires row { row < length self.old.basic }
        requires slot { slot < length self.old.outside }
        requires nonzero { is_zero (cell (row_at self.old row) slot) ≡ false }
        requires ready { IsReady self.old row slot }
        ensures { IsExchanged self.old self.new row slot }
    {
        mixing::exchange(&mut self.rows, &mut self.solved, row, slot);
        relabel(
            &mut self.spots,
            &mut self.basic,
            &mut self.outside,
            row,
            slot,
        );
    }
}

// The column of a row goes to a slot, and that of the slot to the row.
fn relabel(
    spots: &mut Vec<Spot>,
    basic: &mut Vec<u32>,
    outside: &mut Vec<u32>,
    row: usize,
    slot: usize,
)
    requires row { row < length basic.old.items }
    requires slot { slot < length outside.old.items }
    requires basic { slice_index_or basic.old.items row 0 < length spots.old.items }
    requires outside { slice_index_or outside.old.items slot 0 < length spots.old.items }
    ensures spots { spots.new.items ≡ slice_set (slice_set spots.old.items (slice_index_or basic.old.items row 0) (at.Slot slot))
        (slice_index_or outside.old.items slot 0) (at.Row row) }
    ensures basic { basic.new.items ≡ slice_set basic.old.items row (slice_index_or outside.old.items slot 0) }
    ensures outside { outside.new.items ≡ slice_set outside.old.items slot (slice_index_or basic.old.items row 0) }
{
    let leaving = basic[row];
    let entering = outside[slot];
    spots[leaving as usize] = Spot::Slot(slot);
    spots[entering as usize] = Spot::Row(row);
    basic[row] = entering;
    outside[slot] = leaving;
}

// So many numbers, from one on.
fn numbers(alloc: Global, low: u32, count: u32) -> Result<Vec<u32>, AllocError>
    requires few { low + count < 2 ^ 32 }
    ensures { IfOk result (λ v. v.items ≡ numbers_from low count) }
{
    let mut numbers = Vec::new(alloc);
    for number in 0..count {
        numbers.push(low + number)?;
    }
    Ok(numbers)
}

// The slots, and behind them the rows.
fn spots(alloc: Global, slots: usize, rows: usize) -> Result<Vec<Spot>, AllocError>
    ensures { IfOk result (λ v. v.items ≡ slots_to slots ++ rows_to rows) }
{
    let mut spots = slots_of(alloc, slots)?;
    add_rows(&mut spots, rows)?;
    Ok(spots)
}

fn slots_of(alloc: Global, slots: usize) -> Result<Vec<Spot>, AllocError>
    ensures { IfOk result (λ v. v.items ≡ slots_to slots) }
{
    let mut spots = Vec::new(alloc);
    for slot in 0..slots {
        spots.push(Spot::Slot(slot))?;
    }
    Ok(spots)
}

fn add_rows(spots: &mut Vec<Spot>, rows: usize) -> Result<(), AllocError>
    ensures { OnOk result (spots.new.items ≡ spots.old.items ++ rows_to rows) }
{
    for row in 0..rows {
        spots.push(Spot::Row(row))?;
    }
    Ok(())
}
