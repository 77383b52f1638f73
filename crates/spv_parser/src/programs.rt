// Programs.

ghost use Rattle.std.specs.Prelude.{◌≡◌, Some, None, IfOk, IsErrAnd};
ghost use Rattle.spv_grammar.specs.reading.RoutineReaders.{read_files, read_program};
ghost use Rattle.spv_grammar.specs.reading.Readers.{Stop, Read, Halted};
ghost use Rattle.spv_formula_parser.specs.primitives.Faults.{IsStop};

use crate::routine_marks::{ended_block, routines};
use spv_formula_parser::primitives::fault::Fault;
use spv_formula_parser::primitives::front::{
    after, first_line, is_sign, name, past_sign, past_word,
};
use spv_logic::list::List;
use spv_routine_parser::routines::condition;
use spv_routine_parser::type_parser::declarations::declarations;
use spv_routine_parser::type_parser::types::names;
use spv_tree::syntax::{Name, Program, Several};
use spv_tree::tokens::{Sign, Token, Word};
use std::alloc::Global;

// ["(" names ")"]
fn files(alloc: Global, tokens: &[Token]) -> Result<(Option<Several<Name>>, &[Token]), Fault>
    ensures read { IfOk result (λ r. read_files tokens.now ≡ Read (r.0, r.1.now)) }
    ensures absent { (s : Stop) → IsErrAnd result (IsStop s) → read_files tokens.now ≡ Halted s }
{
    if !is_sign(Sign::OpenParenthesis, tokens) {
        return Ok((None, tokens));
    }
    let (names, rest) = names(alloc, after(tokens))?;
    let rest = past_sign(Sign::CloseParenthesis, rest)?;
    Ok((Some(names), rest))
}

// PROGRAM name ["(" names ")"] ";" decls {routine} [ENTRY formula ";"] [EXIT formula ";"] block "."
pub fn program_at(
    alloc: Global,
    levels: u32,
    tokens: &[Token],
) -> Result<(Program, &[Token]), Fault>
    ensures read { IfOk result (λ r. read_program levels tokens.now ≡ Read (r.0, r.1.now)) }
    ensures absent { (s : Stop) → IsErrAnd result (IsStop s) → read_program levels tokens.now ≡ Halted s }
{
    let line = first_line(tokens);
    let rest = past_word(Word::Program, tokens)?;
    let (name, rest) = name(rest)?;
    let (files, rest) = files(alloc, rest)?;
    let rest = past_sign(Sign::Semicolon, rest)?;
    let (declarations, rest) = declarations(alloc, levels, rest)?;
    let (routines, rest) = routines(alloc, levels, rest)?;
    let routines = List::from_vec(routines);
    let (entry, rest) = condition(alloc, levels, Word::Entry, rest)?;
    let (exit, rest) = condition(alloc, levels, Word::Exit, rest)?;
    let (block, rest) = ended_block(alloc, levels, Sign::Period, rest)?;
    let program = Program {
        line,
        name,
        files,
        declarations,
        routines,
        entry,
        exit,
        block,
    };
    Ok((program, rest))
}
