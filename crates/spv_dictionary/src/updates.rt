//! How the values of the columns in a basis go on with that of a column outside it.

mod shifting;

pub use shifting::{shift, test};
