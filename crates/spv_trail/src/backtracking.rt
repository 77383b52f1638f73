//! What is told on a path of a search: its facts in order, those that are known of cores, and both sides.

mod beginning;
mod cases;
mod growing;
mod marks;
mod path;

pub use marks::TrailMark;
pub use path::{BranchTrail, Ground};
