//! Tables of fractions, and what terms and formulas are worth in one.
#![tactic(auto)]

mod evaluating;
mod kept;
mod operations;
mod table;

pub use evaluating::Evaluated;
pub use operations::WideValue;
pub use table::{Table, ValueFault};
