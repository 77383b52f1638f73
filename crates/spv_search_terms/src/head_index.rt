//! Terms of one head, each with the next one behind it; and tests of terms.

mod linking;
mod places;
mod tests;

pub use linking::chains;
pub use tests::{comparable, is_connective, is_number, is_truth, is_truth_value};
