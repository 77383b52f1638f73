//! Solved forms of rows, as rows of numbers with a slot for each column outside the basis.
#![tactic(auto)]

pub mod checked_numbers;
mod dictionary;
mod laws;
mod mixing;
pub mod pivoting;
mod row;
mod spot;
pub mod updates;

pub use dictionary::Dictionary;
pub use laws::{law_exchange, law_first};
pub use row::Row;
pub use spot::Spot;
