//! Facts that become known on a path of a search, the facts that end it, and the values that both sides are told.

mod ending;
mod learning;
mod telling;
mod valuing;

pub use ending::{End, contradiction};
pub use learning::{learn, part_of};
pub use telling::{tell_literal, tell_values};
pub use valuing::value_fact;
