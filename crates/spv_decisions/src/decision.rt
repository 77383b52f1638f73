//! Which atom a search splits on next, and that nothing is missing where there is none.

mod choosing;
mod laws;

pub use choosing::{Choice, choose};
pub use laws::law_full;
