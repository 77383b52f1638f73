//! What was told on a path: literals as facts in order, and what they join and separate in a graph.

mod clashing;
mod entries;
mod sides;
mod telling;
mod trail;

pub use trail::{Level, Trail};
