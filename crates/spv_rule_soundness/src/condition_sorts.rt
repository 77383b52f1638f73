//! The formulas of a program's conditions are of sort Bool.

mod laws;

pub use laws::law_sorted_conditions;
