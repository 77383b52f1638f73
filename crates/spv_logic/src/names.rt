//! Names: texts in upper case, each with a small number that stands for it.

mod maps;
mod names;

pub use names::{Names, Symbol};
