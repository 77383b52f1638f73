//! What is looked up for the statements of a routine's body, or of the main block.

mod bodies;
mod laws;
mod tables;

pub use bodies::body_of;
pub(crate) use bodies::variables_of;
pub use laws::law_stands;
pub use tables::item_sort;
pub(crate) use tables::{add_formals, add_initial, add_names, add_result};
