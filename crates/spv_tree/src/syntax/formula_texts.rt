// Texts of one formula.

use crate::syntax::declarations::Declarations;
use crate::syntax::formulas::Formula;
use crate::syntax::names::Name;

/// `PROGRAM name ";" decls ASSERT formula "."`; the last period of the text ends the formula.
#[derive(Drop)]
pub struct FormulaText {
    /// The line of its first token.
    pub line: u32,
    /// The text's name.
    pub name: Name,
    /// The declarations.
    pub declarations: Declarations,
    /// Behind ASSERT.
    pub formula: Formula,
}
