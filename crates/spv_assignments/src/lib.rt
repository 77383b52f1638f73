//! `kleene`: Truth values of the terms of an arena, each given or computed from those of its arguments, and which of them clash.
//! `polarity`: Terms without their outer negations.
//! `partial_assignment`: What is known on a path of a search: the values that facts give, and what follows from them by evaluation.
//! `monotonicity`: What facts give as they become more.
//! `assignment_vector`: The values that facts give, listed beside the ids of terms.
#![tactic(auto)]

pub mod assignment_vector;
pub mod kleene;
pub mod monotonicity;
pub mod partial_assignment;
pub mod polarity;
