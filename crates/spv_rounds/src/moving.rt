//! Terms of one arena, and what stands for the same in another one.

mod bringing;
mod rounds;
mod terms;

pub use bringing::{back, bring};
pub use rounds::{moved_instance, moved_instances, moved_rounds, moved_table};
