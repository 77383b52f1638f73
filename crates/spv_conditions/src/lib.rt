//! The conditions of a program.
#![tactic(auto)]

mod blocks;
mod laws;
mod leaves;
mod making;
mod opening;
mod routines;

pub use laws::{law_conditions, law_limits, law_sorted_conditions};
pub use making::{ProgramConditions, conditions};
pub use opening::{MOST_TERMS, empty_arena};
