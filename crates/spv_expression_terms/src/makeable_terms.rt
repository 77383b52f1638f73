//! The terms of well typed formulas, expressions and places are such as an arena may have.

mod laws;

pub use laws::{law_scopes, law_sorted};
