//! What the reading of each part of a text needs: why a part is not read, the first tokens, lists, and constants.

pub mod constants;
pub mod fault;
pub mod front;
pub mod lists;
