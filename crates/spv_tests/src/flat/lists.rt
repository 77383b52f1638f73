// Adding the tokens of lists of parts.

ghost use Rattle.std.specs.Prelude.{OnOk};
ghost use Rattle.spv_tree.specs.declared.tokens.token.TokenKind.TheVariants as kind;
ghost use Rattle.spv_tree.specs.syntax.Lists as spec;
ghost use Rattle.spv_tests.specs.flat.Flat.{Adds};

use crate::flat::out;
use crate::flat::spelled::Spelled;
use spv_logic::list::List;
use spv_tree::syntax::Several;
use spv_tree::tokens::{Sign, TokenKind, Word};
use std::alloc::AllocError;

// Adds the tokens of parts, one after the other.
pub fn each<T: Spelled>(parts: &[T], out: &mut Vec<TokenKind>) -> Result<(), AllocError>
    ensures { OnOk result (Adds (spec.each T.spelled parts.now) out.old.items out.new.items) }
{
    for part in parts {
        part.append(out)?;
    }
    Ok(())
}

// Adds the tokens of parts, each behind a sign.
pub fn further<T: Spelled>(
    sign: Sign,
    parts: &[T],
    out: &mut Vec<TokenKind>,
) -> Result<(), AllocError>
    ensures { OnOk result (Adds (spec.further (kind.Sign sign) T.spelled parts.now) out.old.items out.new.items) }
{
    for part in parts {
        out::sign(sign, out)?;
        part.append(out)?;
    }
    Ok(())
}

// Adds the tokens of parts, and a sign between two of them.
pub fn several<T: Spelled>(
    sign: Sign,
    parts: &Several<T>,
    out: &mut Vec<TokenKind>,
) -> Result<(), AllocError>
    ensures { OnOk result (Adds (spec.several (kind.Sign sign) T.spelled parts.now) out.old.items out.new.items) }
{
    parts.first.append(out)?;
    further(sign, parts.more.as_slice(), out)?;
    Ok(())
}

// Adds a word and the tokens of parts, where there are parts.
pub fn headed<T: Spelled>(
    word: Word,
    parts: &List<T>,
    out: &mut Vec<TokenKind>,
) -> Result<(), AllocError>
    ensures { OnOk result (Adds (spec.headed (kind.Word word) T.spelled parts.now) out.old.items out.new.items) }
{
    match parts.as_slice() {
        [] => Ok(()),
        [first, more @ ..] => {
            out::word(word, out)?;
            first.append(out)?;
            each(more, out)?;
            Ok(())
        }
    }
}
