//! What runs of framed programs write: the frame law.
#![tactic(auto)]

pub mod laws;
