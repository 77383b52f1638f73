//! What the steps on the numbers are: the walk of a check over solved forms, and what its answers mean.

mod laws;

pub use laws::{law_placed, law_step, law_underway};
