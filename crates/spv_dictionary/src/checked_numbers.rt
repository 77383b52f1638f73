//! Fractions of 128 bits, seen as the rational numbers that they are.

mod number;

pub use number::{Number, Refused};
