//! Reading stops where the tokens of a text go wrong.

mod laws;

pub use laws::{law_formula_text_stops, law_program_stops, law_rule_stops};
