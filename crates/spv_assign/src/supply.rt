//! Fresh variables and classes, each with a number of its own.

mod supply;

pub use supply::Supply;
