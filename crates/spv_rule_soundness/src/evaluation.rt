//! Evaluation and terms: what an expression without calls gives is what its term is worth.

pub mod laws;
