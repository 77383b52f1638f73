//! Bounds on the rows of relations: the bounds that a literal of a relation of whole numbers is, and a contradiction of bounds
//! as multiples of facts.

mod bounds;
mod laws;
mod multiples;
mod relation;
mod sources;

pub use bounds::{Bounds, bounds_of, has_room, saying};
pub use laws::law_sides;
pub use multiples::fact_multiples;
pub use relation::number_sides;
pub use sources::{RowSources, note};
