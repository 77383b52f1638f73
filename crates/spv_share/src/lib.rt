//! A congruence graph and a tableau that exchange equalities: what was told on a path is open, with a point, or closed by steps of
//! a proof.
#![tactic(auto)]

mod both;
pub mod combination_laws;
mod ending;
mod exchange;
mod opening;
mod reading;
mod relations;
mod searching;
mod stating;
mod telling;

pub use both::{Both, Ends, Level};
pub use relations::{Claim, Related};
pub use stating::Shared;
