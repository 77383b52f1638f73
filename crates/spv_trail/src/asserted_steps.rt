//! Steps that add facts to a path of a search, and the numbers of these facts.

mod adding;
mod evaluating;

pub use adding::{derive, give, tell};
pub use evaluating::{deny, evaluate, evaluate_all};
