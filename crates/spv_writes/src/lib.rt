//! What it is to write in areas of a state alone, and what such writing keeps.
#![tactic(auto)]

pub mod laws;
