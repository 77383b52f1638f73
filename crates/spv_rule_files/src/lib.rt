//! Rule files: their variables and rules with each name resolved, or the first fault of names, types and variables in them.
#![tactic(auto)]

mod faults;
mod forms;
mod laws;
mod names;
mod reading;
pub mod rule_terms;
mod rules;
mod scopes;
mod triggers;
mod variables;

pub use faults::RuleFault;
pub use laws::law_rules;
pub use reading::read;
pub use rules::{RuleForm, TypedRule};
pub use triggers::trigger;
