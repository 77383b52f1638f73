//! Elements of arrays, fields of records, cells of classes, and places: what stands there, and the whole with something else there.

mod class;
mod elements;
mod making;
mod places;

pub use class::{cell, extend, pointer_to, set_cell};
pub use elements::{Step, field, put, read_path, select, store, write_path};
pub use places::{Target, present, whole_with};
