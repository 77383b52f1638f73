//! What a reader expects of the tokens of a text.

mod laws;

pub use laws::{law_comment, law_decimal, law_followed};
