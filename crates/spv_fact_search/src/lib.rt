//! Deciding a condition with facts of schemas at hand: all that is refuted with it is put together, searched through, and the answer told of
//! the condition.
#![tactic(auto)]

mod abstracting;
mod assembling;
mod choosing;
mod claims;
mod cutting;
mod deciding;
mod enlarging;
mod guessing;
mod images;
mod numbers;
mod parts;
mod peers;
mod ranging;
mod reasoning;
mod relevance;
mod returning;
mod stages;
mod telling;
mod trying;
mod weighing;

pub use deciding::{decide_from, decide_with_facts};
