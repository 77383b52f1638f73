//! Rule files from tokens.

pub mod rules;
