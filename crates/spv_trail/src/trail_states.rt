//! What is told on a path of a search, and that a path on which all is told is an open state of it. Theorems; there is no code.

mod laws;

pub use laws::law_told_path;
