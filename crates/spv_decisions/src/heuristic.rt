//! Advice on the atom that a search splits on next. That what is advised may be split on is a contract; which atom it is, is a free choice.

mod heuristic;
mod mending;
mod mirrors;
mod parts;
mod ranking;
mod splitting;

pub use heuristic::{Advice, Heuristic};
pub use mending::{apart_by, shown_false};
