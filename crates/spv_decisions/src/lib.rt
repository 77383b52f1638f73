//! `literal_lookup`: Facts that are found among those that are known: an order of the sides of an equation, the truth of a term, and what contradicts a new fact.
//! `decision`: Which atom a search splits on next, and that nothing is missing where there is none.
//! `heuristic`: Advice on the atom that a search splits on next.
#![tactic(auto)]

pub mod decision;
pub mod heuristic;
pub mod literal_lookup;
