//! `postfix`: Terms built in the arena from their heads in postfix order.
//! `term_walk`: The terms of typed formulas, and of typed expressions and places with variables in the place of their calls, written head by head in postfix order, and made in the arena.
//! `sort_table`: The sorts of names, in two levels.
//! `makeable_terms`: The terms of well typed formulas, expressions and places are such as an arena may have.
#![tactic(auto)]

pub mod makeable_terms;
pub mod postfix;
pub mod sort_table;
pub mod term_walk;
