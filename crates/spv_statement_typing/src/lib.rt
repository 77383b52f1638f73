//! Statements: the walk over the statements of a text.
#![tactic(auto)]

mod assigning;
mod calling;
mod heads;
mod labels;
mod setting;
mod walk;

pub use setting::Setting;
pub use walk::{block, statement};
