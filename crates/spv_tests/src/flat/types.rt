// Types.

ghost use Rattle.std.specs.Prelude.{OnOk};
ghost use Rattle.spv_tree.specs.syntax.Members.{in_kinds};
ghost use Rattle.spv_tree.specs.syntax.TypeSpelling.{field_spelling, more_fields_spelling, more_types_spelling, type_spelling};
ghost use Rattle.spv_tree.specs.syntax.Model.TypeSizes.{more_types_of, more_fields_of};
ghost use Rattle.spv_tests.specs.flat.Flat.{Adds};

use crate::flat::spelled::Spelled;
use crate::flat::{lists, out};
use spv_tree::syntax::{Field, TypeDenoter, TypeForm};
use spv_tree::tokens::{Sign, TokenKind, Word};
use std::alloc::AllocError;

// Adds the tokens of a type.
#[cycle(types)]
pub fn type_denoter(tree: &TypeDenoter, out: &mut Vec<TokenKind>) -> Result<(), AllocError>
    ensures { OnOk result (Adds (type_spelling in_kinds tree.now) out.old.items out.new.items) }
{
    match &tree.form {
        TypeForm::Named(x) => out::token(TokenKind::Name(x.symbol), out),
        TypeForm::Range(low, high) => {
            low.append(out)?;
            out::sign(Sign::Range, out)?;
            high.append(out)?;
            Ok(())
        }
        TypeForm::Pointer(x) => {
            out::sign(Sign::Caret, out)?;
            out::token(TokenKind::Name(x.symbol), out)?;
            Ok(())
        }
        TypeForm::Array(first, more, elements) => {
            out::word(Word::Array, out)?;
            out::sign(Sign::OpenBracket, out)?;
            type_denoter(first, out)?;
            more_types(more, out)?;
            out::sign(Sign::CloseBracket, out)?;
            out::word(Word::Of, out)?;
            type_denoter(elements, out)?;
            Ok(())
        }
        TypeForm::Record(first, more) => {
            out::word(Word::Record, out)?;
            field(first, out)?;
            more_fields(more, out)?;
            out::word(Word::End, out)?;
            Ok(())
        }
    }
}

// Adds the tokens of a field.
#[cycle(types)]
fn field(tree: &Field, out: &mut Vec<TokenKind>) -> Result<(), AllocError>
    ensures { OnOk result (Adds (field_spelling in_kinds tree.now) out.old.items out.new.items) }
{
    match &tree.form {
        None => Ok(()),
        Some((names, of)) => {
            lists::several(Sign::Comma, names, out)?;
            out::sign(Sign::Colon, out)?;
            type_denoter(of, out)?;
            Ok(())
        }
    }
}

// Adds the tokens of types, each behind a comma.
#[cycle(types)]
fn more_types(more: &[TypeDenoter], out: &mut Vec<TokenKind>) -> Result<(), AllocError>
    ensures { OnOk result (Adds (more_types_spelling in_kinds (more_types_of more.now)) out.old.items out.new.items) }
{
    for of in more {
        out::sign(Sign::Comma, out)?;
        type_denoter(of, out)?;
    }
    Ok(())
}

// Adds the tokens of fields, each behind a semicolon.
#[cycle(types)]
fn more_fields(more: &[Field], out: &mut Vec<TokenKind>) -> Result<(), AllocError>
    ensures { OnOk result (Adds (more_fields_spelling in_kinds (more_fields_of more.now)) out.old.items out.new.items) }
{
    for part in more {
        out::sign(Sign::Semicolon, out)?;
        field(part, out)?;
    }
    Ok(())
}
