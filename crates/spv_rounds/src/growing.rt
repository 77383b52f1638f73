//! One round more.

mod rounds;
mod saying;

pub use rounds::grow;
