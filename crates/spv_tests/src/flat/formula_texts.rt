// Texts of one formula.

ghost use Rattle.spv_tree.specs.syntax.Members.{in_kinds};
ghost use Rattle.spv_tree.specs.syntax.RuleSpelling.{formula_text_spelling};

use crate::flat::formulas::formula;
use crate::flat::out;
use crate::flat::spelled::Spelled;
use spv_tree::syntax::FormulaText;
use spv_tree::tokens::{Sign, TokenKind, Word};
use std::alloc::AllocError;

impl Spelled for FormulaText {
    ghost spelled = { formula_text_spelling in_kinds };

    fn append(&self, out: &mut Vec<TokenKind>) -> Result<(), AllocError> {
        out::word(Word::Program, out)?;
        self.name.append(out)?;
        out::sign(Sign::Semicolon, out)?;
        self.declarations.append(out)?;
        out::word(Word::Assert, out)?;
        formula(&self.formula, out)?;
        out::sign(Sign::Period, out)?;
        Ok(())
    }
}
