//! Theorems: what solved forms of rows, their points and contradictions of bounds obey. There is no code.

mod laws;

pub use laws::{law_contradiction, law_pivot, law_point, law_start, law_step, law_unique};
