//! A table that need not be that of a full path is tried: whether it is a table, and whether it shows a condition false.

mod agreeing;
mod keys;
mod trying;

pub use trying::{Tried, try_table};
