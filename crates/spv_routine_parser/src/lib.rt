//! Headings and clauses of routines, and the beginnings of their bodies, from tokens.
#![tactic(auto)]

pub mod routines;
pub mod type_parser;
