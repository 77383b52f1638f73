//! `tokens`: What the lexer makes of a text, and the parser reads.
//! `syntax`: The trees of programs, rule files and formula texts, and their tokens.
#![tactic(auto)]

pub mod syntax;
pub mod tokens;
