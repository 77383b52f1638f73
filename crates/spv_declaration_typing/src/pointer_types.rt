//! Equal pointer types are put together: the new numbers of types, and their forms.

pub mod counting;
mod firsts;
mod merging;
mod rounds;
pub mod written;

pub use counting::Renumbering;
pub use firsts::targets;
pub use merging::{Merged, merge, merge_behind};
pub use written::{Written, copied, whole};
