//! Annotations: the walk over formulas where names stand for terms.
#![tactic(auto)]

mod applying;
mod callee;
mod forms;
mod naming;
mod putting;
mod selecting;
mod settling;
mod signatures;
mod sorted;

pub use callee::Callee;
pub use forms::{Annotations, annotation};
pub use settling::settled_formula;
pub use sorted::Sorted;
