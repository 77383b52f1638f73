//! The tree of a search as it grows, node by node, and the parts of it that are left.

mod branches;
mod cases;
mod copying;
mod finishing;
mod laws;

pub use branches::Branches;
pub use cases::Case;
pub use finishing::Finished;
pub use laws::{law_branches, law_cases, law_tree};
