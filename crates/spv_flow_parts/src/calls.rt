//! The terms of expressions and places with the calls in them, the arguments of calls, and the conditions before a call.

mod at_call;
mod callees;
mod entering;
mod passed;
mod places;
mod values;

pub use at_call::{add_pair, item_head};
pub use callees::{entry_formula, exit_formula};
pub use entering::{before_call, before_entered};
pub use passed::{Argued, Argument, Placed};
pub use values::{arguments, place, value};
