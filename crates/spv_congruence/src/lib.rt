//! The congruence graph: terms in classes, which equalities join, and what is told can be taken back.
#![tactic(auto)]

mod adding;
mod clashing;
mod entering;
mod entries;
mod explaining;
mod facts;
mod graph;
mod joining;
mod kept;
mod taking;
mod telling;
mod walking;

pub use facts::{Fact, Level, Link};
pub use graph::{ClassId, Graph, Mark};
pub use spv_union_find::classes::Cause;
