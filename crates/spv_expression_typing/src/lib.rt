//! Expressions: the walk over formulas where names stand for places, constants and calls.
#![tactic(auto)]

mod applying;
mod callee;
mod calling;
pub mod counter_changes;
mod fitting;
mod forms;
mod naming;
mod reached;
mod selecting;
mod settling;

pub use callee::{Callee, arity};
pub use calling::{call, no_call};
pub use forms::{Expressions, expression_of, operand, written};
pub use reached::Reached;
pub use settling::settled_expression;
