//! The verdicts of a search, and what each of them needs. Definitions and theorems; there is no code.
#![tactic(auto)]

pub mod answers;
pub mod candidate_models;
mod laws;
pub mod model_check;
pub mod translation;

pub use laws::{law_examples, law_splits, law_terms};
