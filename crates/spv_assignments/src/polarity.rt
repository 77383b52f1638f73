//! Terms without their outer negations.

mod laws;
mod negations;
mod saying;

pub use laws::law_cores;
pub use negations::{core, standing};
pub use saying::Standing;
