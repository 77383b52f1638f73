//! Opening a search for a proof of a condition: a copy of it in an arena of its own, its atoms and questions, and both sides for the atoms.

mod laws;
mod outcomes;
mod sides;
mod starting;

pub use laws::law_questions;
pub use outcomes::{Opened, Opening};
pub use starting::open;
