//! The conditions before statements whose assignments, calls, expressions and annotations others make terms and conditions of.
#![tactic(auto)]

pub mod statement_rules;
mod walk;

pub use spv_flow_parts::leaves::Leaves;
pub use walk::before;
