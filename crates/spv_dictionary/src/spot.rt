// Where a column is.

/// Where a column of a dictionary is: the row whose sum it is, or the slot of its entries.
#[derive(Clone, Copy, Debug, PartialEq, Eq)]
pub enum Spot {
    Row(usize),
    Slot(usize),
}
