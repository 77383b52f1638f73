//! What statements and annotations use and call, gathered in the order of the text.

mod events;
mod gathering;
mod names;
mod opening;
mod statements;
mod works;

pub use events::Event;
pub use gathering::{gather_annotation, gather_statement};
pub use names::NameSet;
