//! The tokens of trees.

mod declarations;
mod formula_texts;
mod formulas;
mod lists;
mod names;
mod out;
mod programs;
mod routines;
mod rules;
mod spelled;
mod statements;
mod tree;
mod types;

pub use tree::Flat;
