//! The whole run: from the words to the status, with everything in between.
#![tactic(auto)]

mod drill;
mod found;
mod laws;
mod output;
mod reading;
mod running;
mod words;

pub use laws::{law_commands, law_no_commands};
pub use running::{Ran, run};
pub use spv_verify::{Mode, Refusal, Report, law_report};
