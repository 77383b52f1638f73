//! The facts of a path, one by one.

use spv_atoms::Step;
use spv_logic::TermId;

/// How a literal is told of an atom.
#[derive(Clone, Copy, PartialEq, Eq, Debug)]
pub enum Part {
    /// The atom is true.
    True,
    /// The atom is false.
    False,
    /// Of an equation of two numbers: the left one is below the right one.
    Below,
    /// Of an equation of two numbers: the right one is below the left one.
    Above,
}

/// Where a fact comes from.
#[derive(Debug, Drop)]
pub enum Entry {
    /// It was told: an atom, what of it, and the number that the fact has outside.
    Told(TermId, Part, u32),
    /// It follows from facts before it, whose numbers are those of the derivation.
    Derived(Step),
}
