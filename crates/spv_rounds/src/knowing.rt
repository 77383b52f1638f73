//! What is known of a condition after some rounds.

mod beginning;
mod known;
mod owning;
mod settling;

pub use beginning::begin;
pub use known::{Known, Settled};
pub use owning::own_condition;
pub use settling::settle;
