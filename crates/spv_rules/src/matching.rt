//! Matching: which instances of rules the terms of a condition call for, where a table says what terms are worth.

mod bindings;
mod faults;
mod instances;
mod laws;
mod patterns;
mod values;
mod variables;

pub use faults::MatchFault;
pub use instances::{Instance, matches};
pub use laws::{law_examples, law_found, law_stops};
