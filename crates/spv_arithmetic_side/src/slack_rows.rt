//! The rows of a tableau for the relations of whole numbers among terms: the form of the difference of the sides of each.

mod row;
mod rows;

pub use row::RowFault;
pub use rows::{RelationRows, relation_rows};
