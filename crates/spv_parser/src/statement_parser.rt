//! Statements and blocks from tokens.

mod actions;
mod loops;
pub mod statements;
