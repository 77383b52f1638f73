//! Which tokens begin a text, and at which line tokens that are no text go wrong.

mod laws;

pub use laws::{law_among, law_examples, law_one_line, law_prefixes};
