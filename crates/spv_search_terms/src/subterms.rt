//! The different subterms of terms as ids, arguments first; and what an arena gains by a term that is made.

mod flags;
mod ids;
mod making;
mod walk;

pub use flags::listed;
pub use ids::IdSet;
pub use making::made;
pub use walk::subterms;
