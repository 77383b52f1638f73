//! The facts of schemas: formulas about arrays, records, classes, lists and quotients that are true whatever their terms are worth.
#![tactic(auto)]

pub mod kinds;
pub mod laws;

pub use kinds::SchemaKind;
