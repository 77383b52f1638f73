//! Which terms written terms stand for.

mod heads;
pub mod laws;
mod leaves;
mod numerals;
mod printing;
mod reading;
mod sorts;
mod words;

pub use heads::{head_for, symbol_for};
pub use leaves::{Leaves, leaves_of};
pub use reading::{heads_of, text_at};
pub use sorts::result_sort;
