//! What is refuted together with facts of schemas, as a verdict on the condition alone: its proof, its tree, and its branch.

mod branches;
mod exchanging;
mod laws;
mod replacements;

pub use branches::own_branch;
pub use exchanging::{exchanged_proof, exchanged_tree};
pub use laws::{law_branch, law_counted_terms, law_exchange, law_kept, law_replacements};
pub use replacements::replacements_of;
