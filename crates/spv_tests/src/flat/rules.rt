// Rule files.

ghost use Rattle.std.specs.Prelude.{OnOk};
ghost use Rattle.spv_tree.specs.declared.tokens.token.TokenKind.TheVariants as kind;
ghost use Rattle.spv_tree.specs.syntax.Members.{in_kinds};
ghost use Rattle.spv_tree.specs.syntax.RuleSpelling.{premise_spelling, rule_form_spelling, rule_spelling, rule_tree_spelling, rule_vars_spelling};
ghost use Rattle.spv_tests.specs.flat.Flat.{Adds};

use crate::flat::formulas::formula;
use crate::flat::spelled::Spelled;
use crate::flat::{lists, out};
use spv_tree::syntax::{Formula, Rule, RuleForm, RuleTree, RuleVars};
use spv_tree::tokens::{Sign, TokenKind, Word};
use std::alloc::AllocError;

impl Spelled for RuleVars {
    ghost spelled = { rule_vars_spelling in_kinds };

    fn append(&self, out: &mut Vec<TokenKind>) -> Result<(), AllocError> {
        lists::several(Sign::Comma, &self.names, out)?;
        out::sign(Sign::Colon, out)?;
        self.sort.append(out)?;
        out::sign(Sign::Semicolon, out)?;
        Ok(())
    }
}

// Adds a word and the tokens of the formula behind it, where they are there.
fn premise(word: Word, behind: &Option<Formula>, out: &mut Vec<TokenKind>) -> Result<(), AllocError>
    ensures { OnOk result (Adds (premise_spelling in_kinds (kind.Word word) behind.now) out.old.items out.new.items) }
{
    match behind {
        None => Ok(()),
        Some(part) => {
            out::word(word, out)?;
            formula(part, out)?;
            Ok(())
        }
    }
}

impl Spelled for RuleForm {
    ghost spelled = { rule_form_spelling in_kinds };

    fn append(&self, out: &mut Vec<TokenKind>) -> Result<(), AllocError> {
        match self {
            RuleForm::Replace(left, right, limit) => {
                out::word(Word::Replace, out)?;
                formula(left, out)?;
                out::word(Word::By, out)?;
                formula(right, out)?;
                premise(Word::Where, limit, out)?;
                Ok(())
            }
            RuleForm::Infer(conclusion, reason) => {
                out::word(Word::Infer, out)?;
                formula(conclusion, out)?;
                premise(Word::From, reason, out)?;
                Ok(())
            }
        }
    }
}

impl Spelled for Rule {
    ghost spelled = { rule_spelling in_kinds };

    fn append(&self, out: &mut Vec<TokenKind>) -> Result<(), AllocError> {
        self.form.append(out)?;
        out::sign(Sign::Semicolon, out)?;
        Ok(())
    }
}

impl Spelled for RuleTree {
    ghost spelled = { rule_tree_spelling in_kinds };

    fn append(&self, out: &mut Vec<TokenKind>) -> Result<(), AllocError> {
        lists::headed(Word::Var, &self.variables, out)?;
        lists::each(self.rules.as_slice(), out)?;
        Ok(())
    }
}
