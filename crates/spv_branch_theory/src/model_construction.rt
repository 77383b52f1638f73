//! The table of a congruence graph and a tableau that are open: each whole number is worth its value at the point, each truth value what it was
//! joined with, and each other term the number of its class.

mod firsts;
mod full;
mod laws;
mod numbers;

pub use full::full_table;
pub use laws::law_full_table;
