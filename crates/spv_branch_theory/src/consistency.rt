//! What a congruence graph and a tableau that are open say of the terms of a search: what is the same, what is apart, and that each relation
//! that is known is true at each point that meets the bounds that stand. Theorems; there is no code.

mod laws;

pub use laws::law_live_state;
