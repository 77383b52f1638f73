//! Which limit a walk meets: none where all of it was made, and else the one that comes first.

mod laws;

pub use laws::law_one_limit;
