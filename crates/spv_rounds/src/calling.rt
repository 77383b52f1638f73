//! Which instances a table calls for that are not known.

mod choosing;
mod finding;

pub use choosing::fresh;
pub use finding::find;
