//! Shorter proofs. A proof that a search found holds, on each path, all that was told there; what is not needed is left out of it, and the check
//! of proofs decides whether what is left is a proof.
#![tactic(auto)]

mod citing;
mod connectives;
mod deciding;
mod evaluating;
mod facts;
mod needing;
mod numbers;
mod placing;
mod reading;
pub mod testing;
mod trimming;
mod writing;

pub use deciding::with_shorter_proof;
