//! Terms built in the arena from their heads in postfix order.

mod building;
mod laws;
mod pieces;

pub use building::built;
pub use laws::{law_parts, law_unique};
pub use pieces::{Piece, put};
