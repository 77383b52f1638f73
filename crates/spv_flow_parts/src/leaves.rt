//! What a walk over statements leaves to others: assignments, NEW and calls, expressions with the calls in them, and
//! annotations.

mod calls;
mod leaves;
mod noting;
mod valued;

pub use calls::in_front;
pub use leaves::Leaves;
pub use noting::{before_assert, noted};
pub use valued::{Called, Valued};
