//! The tableau's answers as facts of a derivation: what is told as what it says of a row, and a contradiction of bounds as a fact
//! that ends the path.

mod ending;
mod laws;
mod telling;

pub use ending::contradiction;
pub use laws::{law_refuted, law_supposed, law_told};
pub use telling::told;
