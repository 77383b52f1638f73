//! What was found where all is refuted, told of a condition under rules.

mod steps;
mod verdicts;

pub use verdicts::{proved, told_limit};
