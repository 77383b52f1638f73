//! `evaluation`: Evaluation and terms: what an expression without calls gives is what its term is worth.
//! `statements`: The rules of statements are right: where the conditions before a statement are true, what its run reaches holds, and the conditions after it are true where it ends.
//! `control`: Programs without routines, NEW and assignments to parts: true conditions make them correct.
//! `condition_sorts`: The formulas of a program's conditions are of sort Bool.
#![tactic(auto)]

pub mod condition_sorts;
pub mod control;
pub mod evaluation;
pub mod statements;
