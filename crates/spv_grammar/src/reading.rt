//! How tokens become trees: what is read at their front, and why it is the only tree that they spell.

pub mod laws;
