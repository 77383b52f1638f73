//! What a search's invariant gives of a path: which relations can be known there, that each subterm of the atoms is in the graph, and
//! that fewer facts are live where more are. Theorems; there is no code.

mod laws;

pub use laws::{law_added_parts, law_fewer_facts, law_known_relations};
