// Programs.

ghost use Rattle.std.specs.Prelude.{OnOk};
ghost use Rattle.spv_tree.specs.syntax.Members.{in_kinds};
ghost use Rattle.spv_tree.specs.syntax.ProgramSpelling.{files_spelling, program_spelling};
ghost use Rattle.spv_tests.specs.flat.Flat.{Adds};

use crate::flat::routines::{entry, exit};
use crate::flat::spelled::Spelled;
use crate::flat::statements::block;
use crate::flat::{lists, out};
use spv_tree::syntax::{Name, Program, Several};
use spv_tree::tokens::{Sign, TokenKind, Word};
use std::alloc::AllocError;

// Adds the tokens of the names behind the name of a program, where they are there.
fn files(names: &Option<Several<Name>>, out: &mut Vec<TokenKind>) -> Result<(), AllocError>
    ensures { OnOk result (Adds (files_spelling in_kinds names.now) out.old.items out.new.items) }
{
    match names {
        None => Ok(()),
        Some(names) => {
            out::sign(Sign::OpenParenthesis, out)?;
            lists::several(Sign::Comma, names, out)?;
            out::sign(Sign::CloseParenthesis, out)?;
            Ok(())
        }
    }
}

impl Spelled for Program {
    ghost spelled = { program_spelling in_kinds };

    fn append(&self, out: &mut Vec<TokenKind>) -> Result<(), AllocError> {
        out::word(Word::Program, out)?;
        self.name.append(out)?;
        files(&self.files, out)?;
        out::sign(Sign::Semicolon, out)?;
        self.declarations.append(out)?;
        lists::each(self.routines.as_slice(), out)?;
        entry(&self.entry, out)?;
        exit(&self.exit, out)?;
        block(&self.block, out)?;
        out::sign(Sign::Period, out)?;
        Ok(())
    }
}
