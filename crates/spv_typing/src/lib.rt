//! Typing: the walk from the tree of a text to a program with each name resolved, or to the first fault.
//!
//! The walk is a definition (in `specs/`), in the order of the text. It knows no table and no arena.
#![tactic(auto)]

pub mod faults;

pub use faults::TypeFault;
