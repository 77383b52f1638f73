//! Facts of schemas, made in an arena behind their subterms, and the list of those about used terms.

mod divisions;
mod facts;
mod groups;
mod kinds;
mod listing;
mod making;
mod relations;
mod shapes;
mod sketches;
mod uses;

pub(crate) use kinds::kind_of;
pub use listing::{Instance, instances};
pub use making::fact;
