//! The walk over the formulas of a text, which annotations and expressions have in common.
#![tactic(auto)]

mod alone;
pub mod forms;
mod operators;
mod walk;

pub use forms::{Forms, Given, Operand, Way};
pub use operators::settled;
pub use walk::{arguments, formula, push, written};
