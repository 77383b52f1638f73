//! Instances of rules, made in an arena behind their subterms.

mod building;
mod fitting;
mod instances;
mod pieces;
mod sketching;

pub use building::build;
pub use instances::instance;
pub use pieces::Piece;
