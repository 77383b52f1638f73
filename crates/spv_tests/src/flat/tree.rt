// The tokens of a whole text.

ghost use Rattle.std.specs.Prelude.{◌≡◌, ◌++◌, List, [], OnOk, OnErr};
ghost use Rattle.spv_tree.specs.declared.tokens.token.TokenKind.{TokenKind};
ghost use Rattle.spv_tree.specs.syntax.Members.{in_kinds};
ghost use Rattle.spv_tree.specs.syntax.ProgramSpelling.{program_spelling};
ghost use Rattle.spv_tree.specs.syntax.RuleSpelling.{formula_text_spelling, rule_tree_spelling};
ghost use Rattle.spv_tests.specs.flat.Flat.{Adds};

use crate::flat::spelled::Spelled;
use spv_tree::syntax::{FormulaText, Program, RuleTree};
use spv_tree::tokens::TokenKind;
use std::alloc::AllocError;

/// The tree of a whole text: of a program, a rule file or a formula text.
pub trait Flat {
    /// What it spells, in front of other tokens.
    ghost tokens: { Self → List TokenKind → List TokenKind };

    /// Adds its tokens at the end: all of them, or none where there is no memory.
    fn flat(&self, out: &mut Vec<TokenKind>) -> Result<(), AllocError>
        ensures all { OnOk result (out.new.items ≡ out.old.items ++ tokens self.now []) }
        ensures none { OnErr result (out.new.items ≡ out.old.items) };
}

// The same of any part. They are made apart first, so that the others stay as they are where memory ends.
fn add<T: Spelled>(part: &T, out: &mut Vec<TokenKind>) -> Result<(), AllocError>
    ensures all { OnOk result (out.new.items ≡ out.old.items ++ T.spelled part.now []) }
    ensures none { OnErr result (out.new.items ≡ out.old.items) }
{
    let mut tokens = Vec::new(*out.allocator());
    part.append(&mut tokens)?;
    out.extend_from_slice(&tokens)?;
    Ok(())
}

impl Flat for Program {
    ghost tokens = { program_spelling in_kinds };

    fn flat(&self, out: &mut Vec<TokenKind>) -> Result<(), AllocError> {
        add(self, out)
    }
}

impl Flat for RuleTree {
    ghost tokens = { rule_tree_spelling in_kinds };

    fn flat(&self, out: &mut Vec<TokenKind>) -> Result<(), AllocError> {
        add(self, out)
    }
}

impl Flat for FormulaText {
    ghost tokens = { formula_text_spelling in_kinds };

    fn flat(&self, out: &mut Vec<TokenKind>) -> Result<(), AllocError> {
        add(self, out)
    }
}
