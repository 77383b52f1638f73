//! The variables and classes that a statement may change, in the order of declaration.

mod changing;
mod kinds;
mod names;
mod roots;
mod sets;

pub use changing::changed;
pub use kinds::sort_of;
pub use roots::{AllRoots, Root, RootHead, all_roots};
