//! Listings as values: what a page says of conditions, printed and read back.
#![tactic(auto)]

mod accepting;
mod claims;
mod current;
pub mod data;
mod ends;
pub mod fault;
mod fitting;
mod forms;
mod interning;
mod keywords;
pub mod laws;
mod lines;
mod listing;
mod nodes;
mod numbers;
mod push;
mod reading;
mod scanning;
mod spelling;
pub mod texts;
mod told;
mod verdicts;
mod words;

pub use accepting::{LONGEST_LISTING, read_listing};
pub use listing::{Entry, Listing, page};
