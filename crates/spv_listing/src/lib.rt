//! Listings: the page of a report.
#![tactic(auto)]

pub mod laws;
mod lengths;
mod listing;
pub mod printed;
pub mod verdict_pages;

pub use crate::printed::{push_head, push_term};
pub use listing::{page, push_claim};
