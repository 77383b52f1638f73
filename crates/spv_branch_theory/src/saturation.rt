//! Where a state of a search is open and each question has a value: its table falsifies the condition, or an operation in it is too wide.
//! Theorems; there is no code.

mod laws;

pub use laws::{law_filled_path, law_full_state, law_wide_value};
