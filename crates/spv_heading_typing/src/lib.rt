//! Headings of routines with their clauses: what a routine is to those who call it, and the names that it has.
#![tactic(auto)]

pub mod clauses;
mod finding;
mod globals;
pub mod headings;
pub mod names;
pub mod parameters;
pub mod shared;
pub mod starts;

pub use headings::{Headed, heading};
pub use names::RoutineNames;
pub use parameters::Parameters;
pub use shared::Shared;
