//! `reading`: How tokens become trees: what is read at their front, and why it is the only tree that they spell.
//! `nesting`: How deep a text goes, and which of its words belong to nothing that is accepted.
//! `first_sets`: Which tokens begin a text, and at which line tokens that are no text go wrong.
//! `expected_tokens`: Reading stops where the tokens of a text go wrong.
#![tactic(auto)]

pub mod expected_tokens;
pub mod first_sets;
pub mod nesting;
pub mod reading;
