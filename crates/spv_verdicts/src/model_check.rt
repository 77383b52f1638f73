//! Whether the hypotheses of a condition are true and its goal is false in a table, and the truth of each of its atoms there.

mod evaluating;
mod faults;

pub(crate) use evaluating::atoms_of;
pub use evaluating::surviving;
pub use faults::SurvivingFault;
