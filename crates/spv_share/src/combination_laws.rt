//! What is true of a graph and a tableau that agree: equal terms have one value, and all stays as the arena grows. Theorems; there is
//! no code.

mod growing;
mod searching;
mod values;

pub use growing::law_growing;
pub use searching::law_search;
pub use values::{law_labels, law_one_value};
