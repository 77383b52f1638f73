//! The lines of a verdict: what a listing says of a condition behind its goal.

mod instances;
mod laws;
mod limits;
mod nodes;
mod steps;
mod tallies;
mod totals;
mod verdict;

pub use laws::{law_limit_lines, law_other_proof, law_proof_lines, law_totals, law_unproved_lines};
pub use totals::{push_checked_totals, push_totals};
pub use verdict::push_verdict;
