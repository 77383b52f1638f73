//! `sums`: Sums of multiples of facts, as the checker of proofs makes them: each number in its turn, up to the first that does not fit.
//! `schema_facts`: Facts of schemas, made in an arena behind their subterms.
//! `checker`: The checker of proofs: whether a proof of a condition is accepted, or what stops the check first.
#![tactic(auto)]

pub mod checker;
pub mod schema_facts;
pub mod sums;
