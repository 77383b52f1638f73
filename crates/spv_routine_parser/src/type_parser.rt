//! Types and declarations from tokens.

pub mod declarations;
pub mod types;
