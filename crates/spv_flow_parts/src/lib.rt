//! Parts of the walk that makes conditions: what is known of a body, the terms of its expressions and annotations, lists
//! of conditions, and the renaming of what a loop changes.
#![tactic(auto)]

pub mod assigning;
mod bodies;
pub mod body_tables;
pub mod calls;
pub mod for_loops;
mod indexed;
mod laws;
pub mod leaves;
mod lists;
mod loops;
mod notes;
mod renaming;
mod values;

pub use bodies::Body;
pub use indexed::IndexedProgram;
pub use laws::law_changed;
pub use lists::{copied, known, ways};
pub use loops::end_of_loop;
pub use notes::{note, noted, wanted, wanted_note};
pub use renaming::{renamed, replaced_in};
pub use values::{value, variable};
