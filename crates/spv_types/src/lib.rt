//! Typed programs: a text's tree with each name resolved, or the first fault of names and types in it.
#![tactic(auto)]

pub mod frames;
mod main_block;
mod program;
mod texts;
mod titles;

pub use program::Typed;
pub use spv_typing::TypeFault;
pub use texts::{typed, typed_formula};
