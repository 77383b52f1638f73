//! Truth values of the terms of an arena, each given or computed from those of its arguments, and which of them clash.

mod connectives;
mod laws;
mod passes;
mod tables;

pub use connectives::{Connectives, arguments_of, connectives_of, is_marked};
pub use laws::law_same;
pub use passes::{clash, listed_clash, loud, started, value_at};
