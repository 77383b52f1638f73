//! What literals say of the rows of a tableau, as bounds and as the sums of a proof read them; theorems on both. There is no
//! code.

mod laws;
mod saying;
mod source;

pub use laws::{
    law_bounds, law_difference, law_equal, law_equality, law_impossible, law_literals, law_met,
    law_refuted, law_rows, law_sources,
};
pub use saying::RowConstraint;
pub use source::Source;
