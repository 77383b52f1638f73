//! A search for a proof of a condition, within limits: branch after branch, until a verdict is found or no branch is left. The path of a branch is
//! grown, both sides are asked, and a node of the tree takes the branch, or there is a verdict.
#![tactic(auto)]

mod advancing;
mod branch;
pub mod branches;
mod closing;
mod consulting;
pub mod deciding;
mod exploring;
mod resting;
mod stating;
mod stopping;
mod surveying;
mod walking;

pub use exploring::search;
