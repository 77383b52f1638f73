//! The facts of a path of a search in the order in which they come, as a derivation, and the steps that close the path behind its cases.

mod closing;
mod laws;

pub use closing::closed_behind;
pub use laws::law_path;
