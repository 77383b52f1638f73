//! Rules as a program has them: their variables, their triggers and their formulas, over terms.
#![tactic(auto)]

pub mod making;
pub mod matching;
mod rules;
mod sorts;

pub use making::instance;
pub use rules::{Rule, Rules, law_rule_stays};
