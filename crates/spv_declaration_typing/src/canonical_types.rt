//! A type that was read is put among the types of the program.

mod behind;
pub mod settling;

pub use settling::{NewType, read_type, settle};
