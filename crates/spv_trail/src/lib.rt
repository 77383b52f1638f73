//! `trail_states`: What is told on a path of a search, and that a path on which all is told is an open state of it.
//! `asserted_steps`: Steps that add facts to a path of a search, and the numbers of these facts.
//! `propagation`: Facts that become known on a path of a search, the facts that end it, and the values that both sides are told.
//! `backtracking`: What is told on a path of a search: its facts in order, those that are known of cores, and both sides.
//! `search_setup`: Opening a search for a proof of a condition: a copy of it in an arena of its own, its atoms and questions, and both sides for the atoms.
//! `followers`: Which questions of a search have a value by another term.
#![tactic(auto)]

pub mod asserted_steps;
pub mod backtracking;
pub mod followers;
pub mod propagation;
pub mod search_setup;
pub mod trail_states;
