//! The parts of a check of bounds on the numbers: the bounds that stand, which column leaves the basis and which
//! one enters, a step, a column that moves to its bound, and the combination that a stuck column is read as.

mod choosing;
mod combining;
mod entering;
mod finding;
mod moving;
mod stepping;
mod trail;

pub use choosing::{Chosen, all_met, broken};
pub use combining::combine;
pub use entering::{Entry, limit};
pub use finding::{Found, find};
pub use moving::move_to;
pub use stepping::step;
pub use trail::{Standing, Trail};
