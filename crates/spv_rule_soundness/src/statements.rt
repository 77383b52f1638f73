//! The rules of statements are right: where the conditions before a statement are true, what its run reaches holds,
//! and the conditions after it are true where it ends.

pub mod laws;
