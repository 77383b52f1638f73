//! Which proofs of conditions are accepted, that what they prove is true, and the checker.
#![tactic(auto)]

mod laws;

pub use laws::{law_check, law_examples, law_outcome, law_schema_examples};
