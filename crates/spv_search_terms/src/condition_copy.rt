//! A condition in an arena of its own, in which nothing else stands but 0, 1, TRUE and FALSE.

mod arenas;
mod copying;
mod filling;

pub use copying::copy_all;
pub use filling::{Base, Copied, copy_condition};
