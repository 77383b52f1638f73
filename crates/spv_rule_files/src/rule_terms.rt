//! The rules of a rule file as terms.

mod laws;
mod making;
mod writing;

pub use laws::law_rule_terms;
pub use making::rules_of;
