//! A table of signatures, which finds the term of a head over labels.

mod chains;
mod rows;
mod table;

pub use table::Signatures;
