//! Deciding a condition: a search for a proof of it is opened and made.

mod deciding;

pub use deciding::{decide, decide_near};
