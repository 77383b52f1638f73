//! `classes`: Classes of numbers that are joined, and joins that are taken back.
//! `signatures`: A table of signatures, which finds the term of a head over labels.
#![tactic(auto)]

pub mod classes;
pub mod signatures;
