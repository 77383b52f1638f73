//! Frames: what routines use and call, against the rules, and what each reads and writes.
#![tactic(auto)]

mod aliases;
mod allowed;
mod callees;
mod calls;
mod effects;
mod items;
mod owned;
mod programs;
mod routines;

pub use effects::Effects;
pub use programs::checked;
