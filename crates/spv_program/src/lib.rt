//! Programs as plain data: types, names, expressions, formulas, statements and routines, with each name resolved.
//!
//! Texts, trees and tokens end here, and meaning, conditions and theorems begin here. The definitions (in `specs/`)
//! say which programs are well typed, what the terms of their formulas and expressions are, and which variables and
//! classes each routine reads and writes.
#![tactic(auto)]

pub mod laws;
pub mod operators;
pub mod ordered_map;
pub mod typed;
pub mod types;

pub use operators::{Arithmetic, BuiltIn, Comparison, Connective, Direction};
pub use types::{Item, TypeField, TypeForm};
