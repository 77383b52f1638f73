//! The table of a full leaf of a search: numbers for terms in which each formula has the truth that its atoms give it. Theorems;
//! there is no code.

mod laws;

pub use laws::{
    law_atoms, law_example, law_formulas, law_joined, law_point, law_subterms, law_survives,
    law_table, law_values,
};
