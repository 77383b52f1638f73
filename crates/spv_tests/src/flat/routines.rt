// Routines, as a list of where they begin and end.

ghost use Rattle.std.specs.Prelude.{OnOk};
ghost use Rattle.spv_tree.specs.syntax.Members.{in_kinds};
ghost use Rattle.spv_tree.specs.syntax.ProgramSpelling.{clauses_spelling, entry_spelling, exit_spelling, global_group_spelling, globals_spelling, group_form_spelling, group_spelling, heading_form_spelling, heading_spelling, initial_spelling, item_spelling, locals_spelling, params_spelling, result_spelling, routine_mark_spelling, start_spelling, var_spelling};
ghost use Rattle.spv_tests.specs.flat.Flat.{Adds};

use crate::flat::formulas::formula;
use crate::flat::spelled::Spelled;
use crate::flat::statements::block;
use crate::flat::{lists, out};
use spv_tree::syntax::{
    Clauses, Formula, GlobalGroup, Group, GroupForm, Heading, HeadingForm, Item, Locals, Name,
    Params, RoutineMark, Several, Start,
};
use spv_tree::tokens::{Sign, TokenKind, Word};
use std::alloc::AllocError;

// Adds VAR, where it is there.
fn var(by_place: bool, out: &mut Vec<TokenKind>) -> Result<(), AllocError>
    ensures { OnOk result (Adds (var_spelling in_kinds by_place) out.old.items out.new.items) }
{
    if by_place {
        out::word(Word::Var, out)
    } else {
        Ok(())
    }
}

impl Spelled for GroupForm {
    ghost spelled = { group_form_spelling in_kinds };

    fn append(&self, out: &mut Vec<TokenKind>) -> Result<(), AllocError> {
        match self {
            GroupForm::Variables(by_place, names, of) => {
                var(*by_place, out)?;
                lists::several(Sign::Comma, names, out)?;
                out::sign(Sign::Colon, out)?;
                of.append(out)?;
                Ok(())
            }
            GroupForm::Procedures(names) => {
                out::word(Word::Procedure, out)?;
                lists::several(Sign::Comma, names, out)?;
                Ok(())
            }
            GroupForm::Functions(names, of) => {
                out::word(Word::Function, out)?;
                lists::several(Sign::Comma, names, out)?;
                out::sign(Sign::Colon, out)?;
                of.append(out)?;
                Ok(())
            }
        }
    }
}

impl Spelled for Group {
    ghost spelled = { group_spelling in_kinds };

    fn append(&self, out: &mut Vec<TokenKind>) -> Result<(), AllocError> {
        self.form.append(out)
    }
}

// Adds the tokens of parameters, where there are any.
fn parameters(params: &Option<Params>, out: &mut Vec<TokenKind>) -> Result<(), AllocError>
    ensures { OnOk result (Adds (params_spelling in_kinds params.now) out.old.items out.new.items) }
{
    match params {
        None => Ok(()),
        Some(params) => {
            out::sign(Sign::OpenParenthesis, out)?;
            lists::several(Sign::Semicolon, &params.groups, out)?;
            out::sign(Sign::CloseParenthesis, out)?;
            Ok(())
        }
    }
}

// Adds the tokens of the type of a result, where there is one.
fn result_type(of: &Option<Name>, out: &mut Vec<TokenKind>) -> Result<(), AllocError>
    ensures { OnOk result (Adds (result_spelling in_kinds of.now) out.old.items out.new.items) }
{
    match of {
        None => Ok(()),
        Some(of) => {
            out::sign(Sign::Colon, out)?;
            of.append(out)?;
            Ok(())
        }
    }
}

impl Spelled for HeadingForm {
    ghost spelled = { heading_form_spelling in_kinds };

    fn append(&self, out: &mut Vec<TokenKind>) -> Result<(), AllocError> {
        match self {
            HeadingForm::Procedure(name, params) => {
                out::word(Word::Procedure, out)?;
                name.append(out)?;
                parameters(params, out)?;
                Ok(())
            }
            HeadingForm::Function(name, params, of) => {
                out::word(Word::Function, out)?;
                name.append(out)?;
                parameters(params, out)?;
                result_type(of, out)?;
                Ok(())
            }
        }
    }
}

impl Spelled for Heading {
    ghost spelled = { heading_spelling in_kinds };

    fn append(&self, out: &mut Vec<TokenKind>) -> Result<(), AllocError> {
        self.form.append(out)
    }
}

impl Spelled for Item {
    ghost spelled = { item_spelling in_kinds };

    fn append(&self, out: &mut Vec<TokenKind>) -> Result<(), AllocError> {
        self.form.append(out)
    }
}

impl Spelled for GlobalGroup {
    ghost spelled = { global_group_spelling in_kinds };

    fn append(&self, out: &mut Vec<TokenKind>) -> Result<(), AllocError> {
        var(self.by_place, out)?;
        lists::several(Sign::Comma, &self.items, out)?;
        Ok(())
    }
}

// Adds the tokens of GLOBAL, where it is there.
fn globals(
    groups: &Option<Several<GlobalGroup>>,
    out: &mut Vec<TokenKind>,
) -> Result<(), AllocError>
    ensures { OnOk result (Adds (globals_spelling in_kinds groups.now) out.old.items out.new.items) }
{
    match groups {
        None => Ok(()),
        Some(groups) => {
            out::word(Word::Global, out)?;
            out::sign(Sign::OpenParenthesis, out)?;
            lists::several(Sign::Semicolon, groups, out)?;
            out::sign(Sign::CloseParenthesis, out)?;
            out::sign(Sign::Semicolon, out)?;
            Ok(())
        }
    }
}

impl Spelled for Start {
    ghost spelled = { start_spelling in_kinds };

    fn append(&self, out: &mut Vec<TokenKind>) -> Result<(), AllocError> {
        self.item.append(out)?;
        out::sign(Sign::Equal, out)?;
        self.name.append(out)?;
        Ok(())
    }
}

// Adds the tokens of INITIAL, where it is there.
fn initial(starts: &Option<Several<Start>>, out: &mut Vec<TokenKind>) -> Result<(), AllocError>
    ensures { OnOk result (Adds (initial_spelling in_kinds starts.now) out.old.items out.new.items) }
{
    match starts {
        None => Ok(()),
        Some(starts) => {
            out::word(Word::Initial, out)?;
            lists::several(Sign::Comma, starts, out)?;
            out::sign(Sign::Semicolon, out)?;
            Ok(())
        }
    }
}

// Adds the tokens of ENTRY, where it is there.
pub fn entry(behind: &Option<Formula>, out: &mut Vec<TokenKind>) -> Result<(), AllocError>
    ensures { OnOk result (Adds (entry_spelling in_kinds behind.now) out.old.items out.new.items) }
{
    match behind {
        None => Ok(()),
        Some(part) => {
            out::word(Word::Entry, out)?;
            formula(part, out)?;
            out::sign(Sign::Semicolon, out)?;
            Ok(())
        }
    }
}

// Adds the tokens of EXIT, where it is there.
pub fn exit(behind: &Option<Formula>, out: &mut Vec<TokenKind>) -> Result<(), AllocError>
    ensures { OnOk result (Adds (exit_spelling in_kinds behind.now) out.old.items out.new.items) }
{
    match behind {
        None => Ok(()),
        Some(part) => {
            out::word(Word::Exit, out)?;
            formula(part, out)?;
            out::sign(Sign::Semicolon, out)?;
            Ok(())
        }
    }
}

impl Spelled for Clauses {
    ghost spelled = { clauses_spelling in_kinds };

    fn append(&self, out: &mut Vec<TokenKind>) -> Result<(), AllocError> {
        globals(&self.globals, out)?;
        initial(&self.initial, out)?;
        entry(&self.entry, out)?;
        exit(&self.exit, out)?;
        Ok(())
    }
}

impl Spelled for Locals {
    ghost spelled = { locals_spelling in_kinds };

    fn append(&self, out: &mut Vec<TokenKind>) -> Result<(), AllocError> {
        lists::headed(Word::Const, &self.constants, out)?;
        lists::headed(Word::Var, &self.variables, out)?;
        Ok(())
    }
}

impl Spelled for RoutineMark {
    ghost spelled = { routine_mark_spelling in_kinds };

    fn append(&self, out: &mut Vec<TokenKind>) -> Result<(), AllocError> {
        match self {
            RoutineMark::Announced(heading, clauses) => {
                heading.append(out)?;
                out::sign(Sign::Semicolon, out)?;
                clauses.append(out)?;
                out::word(Word::Forward, out)?;
                out::sign(Sign::Semicolon, out)?;
                Ok(())
            }
            RoutineMark::Begins(heading, clauses, locals) => {
                heading.append(out)?;
                out::sign(Sign::Semicolon, out)?;
                clauses.append(out)?;
                locals.append(out)?;
                Ok(())
            }
            RoutineMark::Ends(last) => {
                block(last, out)?;
                out::sign(Sign::Semicolon, out)?;
                Ok(())
            }
        }
    }
}
