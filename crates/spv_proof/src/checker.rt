//! The checker of proofs: whether a proof of a condition is accepted, or what stops the check first.

mod branches;
pub mod casing;
mod checker;
mod keeping;
mod laws;
mod linear;
pub mod stops;
mod tasks;
mod walking;

pub use checker::{check, check_under};
pub use laws::{law_cited_rules, law_stops};
pub use stops::CheckStop;
