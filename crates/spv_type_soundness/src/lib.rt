//! `faithfulness`: From which trees of texts a typed program may come: what the walk over names and types answers comes from its tree.
//! `well_typed`: What the walk over names and types answers is well typed.
//! `well_typed_programs`: Programs that the walk over names and types answers are well typed.
#![tactic(auto)]

pub mod faithfulness;
pub mod well_typed;
pub mod well_typed_programs;
