// Declarations.

ghost use Rattle.std.specs.Prelude.{OnOk};
ghost use Rattle.spv_tree.specs.syntax.Members.{in_kinds};
ghost use Rattle.spv_tree.specs.syntax.ProgramSpelling.{const_spelling, declarations_spelling, name_or_class_spelling, sort_spelling, sorts_spelling, symbol_spelling, typedef_spelling, vars_spelling};
ghost use Rattle.spv_tests.specs.flat.Flat.{Adds};

use crate::flat::spelled::Spelled;
use crate::flat::types::type_denoter;
use crate::flat::{lists, out};
use spv_tree::syntax::{
    Const, Declarations, NameOrClass, Several, SortName, SymbolText, Typedef, Vars,
};
use spv_tree::tokens::{Sign, TokenKind, Word};
use std::alloc::AllocError;

impl Spelled for Const {
    ghost spelled = { const_spelling in_kinds };

    fn append(&self, out: &mut Vec<TokenKind>) -> Result<(), AllocError> {
        self.name.append(out)?;
        out::sign(Sign::Equal, out)?;
        self.value.append(out)?;
        out::sign(Sign::Semicolon, out)?;
        Ok(())
    }
}

impl Spelled for Typedef {
    ghost spelled = { typedef_spelling in_kinds };

    fn append(&self, out: &mut Vec<TokenKind>) -> Result<(), AllocError> {
        self.name.append(out)?;
        out::sign(Sign::Equal, out)?;
        type_denoter(&self.of, out)?;
        out::sign(Sign::Semicolon, out)?;
        Ok(())
    }
}

impl Spelled for Vars {
    ghost spelled = { vars_spelling in_kinds };

    fn append(&self, out: &mut Vec<TokenKind>) -> Result<(), AllocError> {
        lists::several(Sign::Comma, &self.names, out)?;
        out::sign(Sign::Colon, out)?;
        type_denoter(&self.of, out)?;
        out::sign(Sign::Semicolon, out)?;
        Ok(())
    }
}

impl Spelled for NameOrClass {
    ghost spelled = { name_or_class_spelling in_kinds };

    fn append(&self, out: &mut Vec<TokenKind>) -> Result<(), AllocError> {
        match self {
            NameOrClass::Name(x) => x.append(out),
            NameOrClass::Class(x) => {
                out::sign(Sign::Hash, out)?;
                x.append(out)?;
                Ok(())
            }
        }
    }
}

impl Spelled for SortName {
    ghost spelled = { sort_spelling in_kinds };

    fn append(&self, out: &mut Vec<TokenKind>) -> Result<(), AllocError> {
        self.form.append(out)
    }
}

// Adds the tokens of the sorts of arguments, with their brackets, where there are any.
fn sorts(arguments: &Option<Several<SortName>>, out: &mut Vec<TokenKind>) -> Result<(), AllocError>
    ensures { OnOk result (Adds (sorts_spelling in_kinds arguments.now) out.old.items out.new.items) }
{
    match arguments {
        None => Ok(()),
        Some(sorts) => {
            out::sign(Sign::OpenParenthesis, out)?;
            lists::several(Sign::Comma, sorts, out)?;
            out::sign(Sign::CloseParenthesis, out)?;
            Ok(())
        }
    }
}

impl Spelled for SymbolText {
    ghost spelled = { symbol_spelling in_kinds };

    fn append(&self, out: &mut Vec<TokenKind>) -> Result<(), AllocError> {
        self.name.append(out)?;
        sorts(&self.arguments, out)?;
        out::sign(Sign::Colon, out)?;
        self.result.append(out)?;
        out::sign(Sign::Semicolon, out)?;
        Ok(())
    }
}

impl Spelled for Declarations {
    ghost spelled = { declarations_spelling in_kinds };

    fn append(&self, out: &mut Vec<TokenKind>) -> Result<(), AllocError> {
        lists::headed(Word::Const, &self.constants, out)?;
        lists::headed(Word::Type, &self.types, out)?;
        lists::headed(Word::Var, &self.variables, out)?;
        lists::headed(Word::Declare, &self.symbols, out)?;
        Ok(())
    }
}
