//! `leaf_models`: The table of a full leaf of a search: numbers for terms in which each formula has the truth that its atoms give it.
//! `split_trees`: The trees of a search: which of them are kept, when a path is live, and how many splits there can be.
#![tactic(auto)]

pub mod leaf_models;
pub mod split_trees;
