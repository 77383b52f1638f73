//! Trees from tokens.
#![tactic(auto)]

mod formula_texts;
pub mod language;
mod lines;
mod parser;
mod programs;
mod refused;
mod routine_marks;
pub mod rule_parser;
pub mod statement_parser;

pub use parser::{formula, program, rules};
pub use refused::SyntaxFault;
