//! The logic of conditions: sorts, heads, values, terms as trees, and what a term is worth.
//!
//! A reader who wants to know what PROVED claims reads the definitions of this crate (in `specs/`)
//! and those of `spv_meaning`; no code stands in them.
#![tactic(auto)]

pub mod conditions;
pub mod laws;
pub mod list;
pub mod names;
pub mod operators;
pub mod types;
pub mod worlds;

pub use conditions::{Kind, Origin, RoutineId, TermId};
pub use operators::Head;
pub use types::{Decl, Field, Shape, Sort, TypeId};
pub use worlds::{PlainWorld, World};
