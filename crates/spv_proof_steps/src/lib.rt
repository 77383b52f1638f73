//! What each step of a proof adds to the facts of its path, but for sums of relations.
#![tactic(auto)]

pub mod candidates;
mod congruence;
pub mod facts;
mod known;
pub mod steps;
mod valued;

pub use candidates::{Candidate, sides};
pub use congruence::congruent;
pub use facts::{Effect, Fact};
pub use steps::{end_of, evaluated, exchanged, fact, given_effect, joined};
pub use valued::is_truth;
