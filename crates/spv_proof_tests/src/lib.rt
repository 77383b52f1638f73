//! What no clause says of the crates that prove conditions.
#![tactic(auto)]

#[cfg(test)]
mod arrays;
mod checks;
#[cfg(test)]
mod formulas;
#[cfg(test)]
mod instances;
pub mod rules;
#[cfg(test)]
mod schemas;
#[cfg(test)]
mod splits;
#[cfg(test)]
mod sums;
#[cfg(test)]
pub mod term_walk_tests;
