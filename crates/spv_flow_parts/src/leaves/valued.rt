// The term of an expression, and the calls that are made in it.

use spv_logic::TermId;
use spv_logic::list::List;

/// A call of a function in an expression.
#[derive(Debug, Drop)]
pub struct Called {
    /// The terms of its arguments.
    pub args: List<TermId>,
    /// Its ENTRY for these arguments, where it has one.
    pub needs: Option<TermId>,
    /// Its EXIT for these arguments, with a fresh variable in the place of its result, where it has one.
    pub gives: Option<TermId>,
    /// The line of its name.
    pub line: u32,
}

/// The term of an expression, and the calls that are made in it, in order; each stands in the term as a fresh variable.
#[derive(Debug, Drop)]
pub struct Valued {
    /// The term.
    pub term: TermId,
    /// The calls.
    pub calls: List<Called>,
}
