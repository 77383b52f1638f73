//! Bounds on the rows of relations that come from the facts of a derivation, and what a contradiction of them shows.

mod ending;
mod forcing;
mod reading;
mod saying;
mod standing;

pub use forcing::Tried;
pub use saying::end_opposed;
pub use standing::Standing;
