// Routines, as a list of where they begin and end. A text may have any number of them inside one another.

ghost use Rattle.std.specs.Prelude.{◌≡◌, ◌<◌, ◌-◌, ◌^◌, Some, None, IfOk, IsErrAnd};
ghost use Rattle.spv_tree.specs.declared.tokens.token.TokenKind.TheVariants as kind;
ghost use Rattle.spv_grammar.specs.reading.Readers.{Stop, Read, Halted, ended};
ghost use Rattle.spv_grammar.specs.reading.StatementReaders.{read_block};
ghost use Rattle.spv_grammar.specs.reading.RoutineReaders as routine;
ghost use Rattle.spv_formula_parser.specs.primitives.Faults.{IsStop};

use crate::statement_parser::statements::block;
use spv_formula_parser::primitives::fault::{Fault, unexpected};
use spv_formula_parser::primitives::front::past_sign;
use spv_routine_parser::routines::{begins_heading, mark};
use spv_tree::syntax::{Block, RoutineMark};
use spv_tree::tokens::{Sign, Token};
use std::alloc::Global;

// block, and the sign that ends it
pub fn ended_block(
    alloc: Global,
    levels: u32,
    sign: Sign,
    tokens: &[Token],
) -> Result<(Block, &[Token]), Fault>
    ensures read { IfOk result (λ r. ended (kind.Sign sign) (read_block levels) tokens.now ≡ Read (r.0, r.1.now)) }
    ensures absent { (s : Stop) → IsErrAnd result (IsStop s) → ended (kind.Sign sign) (read_block levels) tokens.now ≡ Halted s }
{
    let (block, rest) = block(alloc, levels, tokens)?;
    let rest = past_sign(sign, rest)?;
    Ok((block, rest))
}

// How many routines have begun and not ended behind a mark that begins or announces one.
fn begun_behind(begun: usize, mark: &RoutineMark) -> usize
    requires { begun < 2 ^ 64 - 1 }
    ensures { result ≡ routine.begun_behind begun mark.now }
{
    match mark {
        RoutineMark::Begins(_, _, _) => begun + 1,
        RoutineMark::Announced(_, _) | RoutineMark::Ends(_) => begun,
    }
}

// {routine}
pub fn routines(
    alloc: Global,
    levels: u32,
    tokens: &[Token],
) -> Result<(Vec<RoutineMark>, &[Token]), Fault>
    ensures read { IfOk result (λ r. routine.read_routines levels tokens.now ≡ Read (r.0.items, r.1.now)) }
    ensures absent { (s : Stop) → IsErrAnd result (IsStop s) → routine.read_routines levels tokens.now ≡ Halted s }
{
    let mut marks = Vec::new(alloc);
    let mut rest = tokens;
    let mut begun = 0;
    for _ in 0..tokens.len() {
        if begins_heading(rest) {
            let (first, next) = mark(alloc, levels, rest)?;
            begun = begun_behind(begun, &first);
            marks.push(first)?;
            rest = next;
        } else if begun > 0 {
            let (last, next) = ended_block(alloc, levels, Sign::Semicolon, rest)?;
            begun -= 1;
            marks.push(RoutineMark::Ends(last))?;
            rest = next;
        } else {
            return Ok((marks, rest));
        }
    }
    if begun == 0 {
        Ok((marks, rest))
    } else {
        Err(unexpected(rest))
    }
}
