//! What facts give as they become more. Theorems; there is no code.

mod laws;

pub use laws::law_known_growth;
