//! Proofs of conditions that a listing says, checked anew.
#![tactic(auto)]

mod comparing;
mod converting;
mod making;
mod parts;
mod rechecking;
pub mod written_terms;

pub use rechecking::recheck;
