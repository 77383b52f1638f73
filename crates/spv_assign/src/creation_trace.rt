//! What a walk over statements makes, in order, and the limits that it meets.

mod faults;
mod laws;

pub use faults::{GenFault, LONGEST_LIST};
pub use laws::{law_examples, law_limits, law_walks};
