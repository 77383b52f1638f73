//! How deep a text goes, and which of its words belong to nothing that is accepted.

mod effects;
mod laws;
mod scan;
mod words;

pub use laws::{
    law_depth, law_enough, law_enough_formula_text, law_enough_rules, law_level, law_shallow,
};
pub use scan::too_deep;
pub use words::left_out;
