// Formula texts.

ghost use Rattle.std.specs.Prelude.{◌≡◌, List, [], Some, None, IfOk, IsErrAnd, IfSome, IsNone, length};
ghost use Rattle.spv_grammar.specs.reading.RuleReaders as spec;
ghost use Rattle.spv_grammar.specs.reading.FormulaReaders.{read_formula};
ghost use Rattle.spv_grammar.specs.reading.Readers.{Stop, Read, Halted};
ghost use Rattle.spv_grammar.specs.expected_tokens.FormulaTexts as whole;
ghost use Rattle.spv_grammar.specs.expected_tokens.FormulaTexts.{without_period, whole_asserted, whole_formula_text};
ghost use Rattle.spv_formula_parser.specs.primitives.Faults.{IsStop};
ghost use Rattle.spv_parser.specs.Stopped.{IsOneMore};

use spv_formula_parser::formulas::formula;
use spv_formula_parser::primitives::fault::Fault;
use spv_formula_parser::primitives::front::{
    after, first_line, is_sign, name, past_sign, past_word,
};
use spv_routine_parser::type_parser::declarations::declarations;
use spv_tree::syntax::{Formula, FormulaText};
use spv_tree::tokens::{Sign, Token, TokenKind, Word};
use std::alloc::Global;

// The tokens before the last one, where that is a period.
fn before_period(tokens: &[Token]) -> Option<&[Token]>
    ensures there { IfSome result (λ inside. spec.before_period tokens.now ≡ Some inside.now) }
    ensures absent { IsNone result → spec.before_period tokens.now ≡ None }
{
    match tokens {
        [inside @ .., last] if last.kind == TokenKind::Sign(Sign::Period) => Some(inside),
        _ => None,
    }
}

// How many tokens are left where a text goes wrong that has these behind a whole formula. A period first could end the text, so
// then it is behind that.
fn surplus(rest: &[Token]) -> usize
    ensures { result ≡ length (whole.surplus rest.now) }
{
    if is_sign(Sign::Period, rest) {
        return after(rest).len();
    }
    rest.len()
}

// Why no formula and period stand here, where the tokens do not end with a period.
fn unended(alloc: Global, levels: u32, tokens: &[Token]) -> Fault
    ensures { (s : Stop) → IsStop s result → without_period (read_formula levels tokens.now) ≡ Halted s }
{
    match formula(alloc, levels, tokens) {
        Ok((_, rest)) => Fault::Syntax(surplus(rest)),
        Err(fault) => fault,
    }
}

// A fault in the tokens before the last one, as one in all of them. There are never so many left that one more is not told.
fn before_last(fault: Fault) -> Fault
    ensures { (s : Stop) → IsStop s result → IsOneMore s fault }
{
    match fault {
        Fault::Syntax(left) => match left.checked_add(1) {
            Some(left) => Fault::Syntax(left),
            None => Fault::Memory,
        },
        Fault::Deep(left) => match left.checked_add(1) {
            Some(left) => Fault::Deep(left),
            None => Fault::Memory,
        },
        Fault::Memory => Fault::Memory,
    }
}

// formula ".", to the end of the tokens
fn asserted(alloc: Global, levels: u32, tokens: &[Token]) -> Result<Formula, Fault>
    ensures read { IfOk result (λ f. whole_asserted levels tokens.now ≡ Read (f, [])) }
    ensures absent { (s : Stop) → IsErrAnd result (IsStop s) → whole_asserted levels tokens.now ≡ Halted s }
{
    let Some(inside) = before_period(tokens) else {
        return Err(unended(alloc, levels, tokens));
    };
    match formula(alloc, levels, inside) {
        Ok((formula, [])) => Ok(formula),
        Ok((_, rest)) => Err(before_last(Fault::Syntax(surplus(rest)))),
        Err(fault) => Err(before_last(fault)),
    }
}

// PROGRAM name ";" decls ASSERT formula ".", to the end of the tokens
pub fn formula_text(alloc: Global, levels: u32, tokens: &[Token]) -> Result<FormulaText, Fault>
    ensures read { IfOk result (λ t. whole_formula_text levels tokens.now ≡ Read (t, [])) }
    ensures absent { (s : Stop) → IsErrAnd result (IsStop s) → whole_formula_text levels tokens.now ≡ Halted s }
{
    let line = first_line(tokens);
    let rest = past_word(Word::Program, tokens)?;
    let (name, rest) = name(rest)?;
    let rest = past_sign(Sign::Semicolon, rest)?;
    let (declarations, rest) = declarations(alloc, levels, rest)?;
    let rest = past_word(Word::Assert, rest)?;
    let formula = asserted(alloc, levels, rest)?;
    Ok(FormulaText {
        line,
        name,
        declarations,
        formula,
    })
}
