//! Terms in the place of variables, all at once, over the arena; and fresh variables.

mod images;
mod laws;
mod numbers;
mod substitution;
mod walk;

pub use laws::law_worth;
pub use numbers::fresh;
pub use substitution::{substitute, substitute_all};
