//! The arena of terms: each term stands once, under a small number.
//!
//! Contracts see a `Terms` as the list of its nodes. The definitions in `specs/` say which tree and
//! which sort each node stands for.
#![tactic(auto)]

pub mod closure;
mod laws;
mod lists;
mod nodes;
mod sorts;
pub mod substitution;
mod terms;

pub use laws::{law_grows, law_make, law_one_id, law_sorted, law_types, law_worth};
pub use lists::{Arguments, Shapes};
pub use nodes::{Condition, Node, TermFault};
pub use spv_logic::{
    Decl, Field, Head, Kind, Origin, PlainWorld, RoutineId, Shape, Sort, TermId, TypeId, World,
};
pub use terms::Terms;
