//! What runs of well typed programs keep: each name has a value of its type, and the heap is right.
#![tactic(auto)]

pub mod facts;
pub mod laws;
