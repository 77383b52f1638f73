//! Local declarations of routines.

mod declaring;
mod places;

pub use declaring::locals;
pub use places::Local;
