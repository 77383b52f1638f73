//! `equalities`: Why two terms of a congruence graph are equal, as facts of a derivation.
//! `congruence_side`: What was told on a path: literals as facts in order, and what they join and separate in a graph.
#![tactic(auto)]

pub mod congruence_side;
pub mod equalities;
