//! What the rule of FOR makes: the terms of its variable and its ends, and the conditions behind its body.

mod closing;
mod ending;
mod terms;

pub use ending::{end_of_for, wanted_put};
pub use terms::{CounterTerms, counter};
