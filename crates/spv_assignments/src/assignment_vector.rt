//! The values that facts give, listed beside the ids of terms.

mod lists;
mod reading;
mod sayings;

pub use lists::listed;
