// Names and constants.

ghost use Rattle.std.specs.Prelude.{◌≡◌, OnOk};
ghost use Rattle.spv_tree.specs.syntax.Members.{in_kinds};
ghost use Rattle.spv_tree.specs.syntax.FormulaSpelling.{name_spelling, prefix_spelling};
ghost use Rattle.spv_tree.specs.syntax.TypeSpelling.{constant_spelling, scalar_kind};
ghost use Rattle.spv_tests.specs.flat.Flat.{Adds};

use crate::flat::out;
use crate::flat::spelled::Spelled;
use spv_tree::syntax::{Constant, Name, PlusOrMinus, Scalar};
use spv_tree::tokens::{Sign, TokenKind};
use std::alloc::AllocError;

impl Spelled for Name {
    ghost spelled = { name_spelling in_kinds };

    fn append(&self, out: &mut Vec<TokenKind>) -> Result<(), AllocError> {
        out::token(TokenKind::Name(self.symbol), out)
    }
}

// Adds `+` or `-`, where there is one.
pub fn prefix(prefix: Option<PlusOrMinus>, out: &mut Vec<TokenKind>) -> Result<(), AllocError>
    ensures { OnOk result (Adds (prefix_spelling in_kinds prefix) out.old.items out.new.items) }
{
    match prefix {
        None => Ok(()),
        Some(PlusOrMinus::Plus) => out::sign(Sign::Plus, out),
        Some(PlusOrMinus::Minus) => out::sign(Sign::Minus, out),
    }
}

// The token of a constant without its sign.
fn scalar_token(value: Scalar) -> TokenKind
    ensures { result ≡ scalar_kind value }
{
    match value {
        Scalar::Number(n) => TokenKind::Number(n),
        Scalar::Name(x) => TokenKind::Name(x.symbol),
    }
}

impl Spelled for Constant {
    ghost spelled = { constant_spelling in_kinds };

    fn append(&self, out: &mut Vec<TokenKind>) -> Result<(), AllocError> {
        prefix(self.sign, out)?;
        out::token(scalar_token(self.value), out)?;
        Ok(())
    }
}
