//! The kinds of texts, and their trees.

ghost use Rattle.std.specs.Prelude.{◌≡◌};
ghost use Rattle.spv_verify.specs.texts.Trees as spec;

use spv_reports::Mode;
use spv_tree::syntax::{FormulaText, Program};

/// What a text is read as.
#[derive(Clone, Copy, Debug)]
pub enum TextKind {
    /// A program.
    Program,
    /// A formula text: declarations, and one ASSERT.
    Formula,
}

/// The tree of a text.
#[derive(Drop)]
pub enum TextTree {
    /// Of a program.
    OfProgram(Program),
    /// Of a formula text.
    OfFormula(FormulaText),
}

/// What the text is read as that a report of this mode is of.
pub fn kind_of(mode: &Mode) -> TextKind
    ensures { result ≡ spec.kind_of mode.now }
{
    match mode {
        Mode::Simplify(_) => TextKind::Formula,
        Mode::Verify(_) | Mode::Check | Mode::Conditions | Mode::Drill(_, _) => TextKind::Program,
    }
}
