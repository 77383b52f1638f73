//! The walk over declarations: constants, types, variables and declared symbols.
#![tactic(auto)]

mod all;
pub mod canonical_types;
mod constants;
pub mod pointer_types;
mod symbols;
pub mod type_typing;
mod types;
pub mod variables;

pub use all::declarations;
pub use constants::const_part;
pub use symbols::{class_named, symbol_part};
pub use types::type_part;
pub use variables::{FreeNames, var_part};
