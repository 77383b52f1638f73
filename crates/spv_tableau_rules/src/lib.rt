//! `tableaux`: Definitions: rows with a column each, bounds on them, solved forms, steps of the simplex algorithm, and what the answers of a check mean.
//! `pivots`: Theorems: what solved forms of rows, their points and contradictions of bounds obey.
//! `constraints`: What literals say of the rows of a tableau, as bounds and as the sums of a proof read them; theorems on both.
#![tactic(auto)]

pub mod constraints;
pub mod pivots;
pub mod tableaux;
