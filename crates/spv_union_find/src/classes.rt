//! Classes of numbers that are joined, and joins that are taken back.

mod classes;
mod joins;
mod rings;
mod times;

pub use classes::Classes;
pub use joins::{Cause, Join};
