//! `formula_text_tests`: Tests of typed formula texts.
//! `language_tests`: Tests of what is read of texts, by calls that the command does not make, and of the tokens of trees.
//! `typing_tests`: Tests of typed and framed programs.

pub mod formula_text_tests;
pub mod language_tests;
pub mod typing_tests;
