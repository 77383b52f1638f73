//! What the rules of IF, CASE and loops make beside the conditions before their parts.

mod arms;
mod counting;
mod loops;
mod ways;

pub use arms::with_arm;
pub use counting::{BegunFor, ForTerms, begin_for, end_for};
pub use loops::{Begun, LoopTerms, begin_repeat, begin_while, end_repeat, end_while};
pub use ways::tested_ways;
