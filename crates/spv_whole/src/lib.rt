//! Definitions and laws of whole numbers without limit: the greatest common divisor, and fractions
//! in lowest terms with their sums, products and order. There is no code here; the crates above cite
//! `specs/` in their contracts and `proofs/` in their proofs.
#![tactic(auto)]
