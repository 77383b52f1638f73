//! `derivation`: The facts of a path in order, each told or derived from those before it, and their steps with the numbers of a path outside.
//! `branches`: The facts of a path of a search in the order in which they come, as a derivation, and the steps that close the path behind its cases.
#![tactic(auto)]

pub mod branches;
pub mod derivation;
