//! What a search for a proof of a condition answers: the condition in an arena of its own, and a verdict.

mod growing;
mod laws;
mod limits;
mod trees;
mod verdicts;

pub(crate) use growing::number_of;
pub use growing::{Grown, grown_tree};
pub use laws::{law_closed, law_tree};
pub use limits::Limits;
pub use trees::{SplitNode, SplitTree};
pub use verdicts::{Decided, Instance, Limit, Round, Unproved, Verdict, Wide};
