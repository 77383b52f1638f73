//! Types as they are written: constants, names of types, and the types that a text builds of them.

mod constants;
mod fields;
pub mod names;
pub mod nested;
pub mod targets;
mod types;

pub use constants::{constant, type_named};
pub use names::{Free, new_names};
pub use targets::Targets;
pub use types::denoted;
