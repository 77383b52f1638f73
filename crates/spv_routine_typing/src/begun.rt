// Routines whose bodies have begun.

use crate::local_typing::Local;
use spv_environments::Specified;
use spv_logic::names::Symbol;

/// A routine whose body has begun and has not ended.
#[derive(Drop)]
pub struct Begun {
    /// Its name.
    pub name: Symbol,
    /// Its heading with its clauses.
    pub specified: Specified,
    /// Its names and its local variables.
    pub local: Local,
}
