//! The trees of a search: which of them are kept, when a path is live, and how many splits there can be. Theorems; there is no code.

mod laws;

pub use laws::{
    law_contradictions, law_examples, law_few_splits, law_full_path, law_joined, law_known,
    law_live,
};
