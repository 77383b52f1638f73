//! The facts of a path in order, each told or derived from those before it, and their steps with the numbers of a path outside.

mod copying;
mod derivation;
mod entries;
mod laws;
mod sides;

pub use derivation::Derivation;
pub use entries::{Entry, Part};
pub use laws::{law_cited, law_first, law_grows, law_sides, law_steps};
