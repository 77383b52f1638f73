//! `model_construction`: The table of a congruence graph and a tableau that are open: each whole number is worth its value at the point, each truth value what it was joined with, and each other term the number of its class.
//! `consistency`: What a congruence graph and a tableau that are open say of the terms of a search: what is the same, what is apart, and that each relation that is known is true at each point that meets the bounds that stand.
//! `saturation`: Where a state of a search is open and each question has a value: its table falsifies the condition, or an operation in it is too wide.
//! `search_invariant`: What a search's invariant gives of a path: which relations can be known there, that each subterm of the atoms is in the graph, and that fewer facts are live where more are.
//! `evidence`: The evidence of a check that was stopped is what a verdict of a search wants of it.
#![tactic(auto)]

pub mod consistency;
pub mod evidence;
pub mod model_construction;
pub mod saturation;
pub mod search_invariant;
