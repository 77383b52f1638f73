//! Assignments, calls of procedures and NEW are right, and so are programs whose conditions are true.
#![tactic(auto)]

pub mod laws;
