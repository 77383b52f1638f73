//! Bounds on linear forms over the rational numbers: which of them a point meets, and which contradict each
//! other.
#![tactic(auto)]

mod cells;
mod checked;
mod evidence;
mod forms;
mod laws;
pub mod pivot_runs;
mod searching;
mod tableau;

pub use checked::Checked;
pub use evidence::Evidence;
pub use forms::can_open;
pub use laws::law_asserted;
pub use spv_tableau_rules::tableaux::Side;
pub use tableau::{Mark, Tableau};
