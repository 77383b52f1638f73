//! The reading of the language: from the bytes of a text to its tree.

mod fault;
mod laws;
mod reading;

pub use fault::LanguageFault;
pub use laws::law_one_tree;
pub use reading::{formula, program, rules};
