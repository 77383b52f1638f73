//! Rational numbers, for definitions and theorems: one value for each number, so that each law is a
//! plain equation. No code computes with them; the fractions of the code are those of `spv_frac`, and
//! what such a fraction stands for is said here.

mod laws;

pub use laws::{law_number, law_products, law_signs, law_sums, law_whole};
