//! The evidence of a check that was stopped is what a verdict of a search wants of it. Theorems; there is no code.

mod laws;

pub use laws::law_evidence;
