//! Why two terms of a congruence graph are equal, as facts of a derivation.

mod known;
mod laws;
mod links;
mod reasons;
mod works;

pub use laws::law_backed;
pub use reasons::{contradiction, reason};
