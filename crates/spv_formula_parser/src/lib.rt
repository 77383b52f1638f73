//! Formulas and designators from tokens.
#![tactic(auto)]

pub mod factors;
pub mod formulas;
pub mod primitives;
