//! What names stand for while a text is typed: the tables of the walk over names and types.
#![tactic(auto)]

mod adding;
mod announcing;
mod ending;
mod fields;
pub mod formals;
pub mod functions;
mod headings;
pub mod indexed;
pub mod known;
pub mod numbered;
mod parts;
pub mod routines;
pub mod scopes;
mod waiting;

pub use formals::Formals;
pub use functions::{Function, KnownNames};
pub use indexed::IndexedForms;
pub use known::{Known, Signature};
pub use routines::{Heading, Specified};
pub use scopes::{Meaning, Own, Scope};
