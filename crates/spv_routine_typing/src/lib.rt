//! Routines of a text in a row: their headings, those that are announced first, and their bodies.
#![tactic(auto)]

mod again;
mod beginning;
mod begun;
mod ending;
mod listed;
pub mod local_typing;
mod numbers;
mod row;

pub use row::routines;
