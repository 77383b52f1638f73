//! Small programs, worked out by hand: what they do, and what their conditions are.
//!
//! Whoever doubts a definition of `spv_meaning` finds here a program that shows what it says.
#![tactic(auto)]

pub mod conditions;
pub mod doubts;
pub mod evaluated;
pub mod frame_texts;
pub mod rule_texts;
pub mod runs;
pub mod typed_texts;
pub mod typing;
pub mod written;
