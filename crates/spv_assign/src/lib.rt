//! Conditions before an assignment: a term in the place of a variable in all of them, and
//! hypotheses in front of all of them. `structures`: what stands at a place, and the whole with something else there.
#![tactic(auto)]

mod assigning;
pub mod creation_trace;
pub mod limited_steps;
pub mod limits;
pub mod pending;
pub mod structures;
pub mod supply;

pub use assigning::before_assign;
pub use pending::Pending;
