//! Evaluation with calls: what expressions, places and arguments give is what their terms say, where functions give what they promise.
#![tactic(auto)]

pub mod laws;
