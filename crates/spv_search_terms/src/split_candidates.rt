//! The subterms, the atoms and the questions of a search as ids.

mod adding;
mod asking;
mod equations;
mod pairs;

pub use asking::{Questions, ask};
