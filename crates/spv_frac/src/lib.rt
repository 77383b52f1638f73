//! Exact fractions of 128-bit numbers, or the word that a number is too wide.
#![tactic(auto)]

mod frac;
mod law;
mod number;
pub mod rational;

pub use frac::{Frac, Op, TooWide};
pub use law::{law_add, law_cmp, law_frac, law_mul, law_value};
pub use number::{plus, times};
