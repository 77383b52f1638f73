//! What is decided of a condition under rules: rounds of instances.
#![tactic(auto)]

pub mod calling;
pub mod growing;
pub mod judging;
pub mod knowing;
mod laws;
pub mod moving;
pub mod telling;

pub use laws::{
    law_array_examples, law_atoms, law_kept, law_no_rules, law_proved, law_splits, law_tables,
    law_true_in_each_table,
};
