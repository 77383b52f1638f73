//! Definitions: rows with a column each, bounds on them, solved forms, steps of the simplex algorithm, and
//! what the answers of a check mean.

mod laws;
mod side;

pub use laws::{
    law_example_contradiction, law_example_forms, law_example_inside, law_example_solved,
    law_example_steps,
};
pub use side::Side;
