// Assignments, calls and NEW.

ghost use Rattle.std.specs.Prelude.{◌≡◌, Some, None, IfOk, IsErrAnd};
ghost use Rattle.spv_tree.specs.syntax.Model.FormulaSizes.{selectors_of};
ghost use Rattle.spv_tree.specs.declared.tokens.token.TokenKind.TheVariants as kind;
ghost use Rattle.spv_tree.specs.declared.tokens.token.Sign.TheVariants as sign;
ghost use Rattle.spv_grammar.specs.reading.Readers.{Stop, Read, Halted, several_of};
ghost use Rattle.spv_grammar.specs.reading.FormulaReaders.{read_designator, read_inner, read_formula};
ghost use Rattle.spv_grammar.specs.reading.StatementReaders.{read_call, read_creation, read_becomes, read_action};
ghost use Rattle.spv_formula_parser.specs.primitives.Faults.{IsStop};
ghost use Rattle.spv_parser.specs.statement_parser.Compound.{read_assigned};

use spv_formula_parser::factors::{designator, selectors};
use spv_formula_parser::formulas::{formula, inner};
use spv_formula_parser::primitives::fault::{Fault, unexpected};
use spv_formula_parser::primitives::front::{after, is_sign, past_sign};
use spv_formula_parser::primitives::lists::{PartReader, several};
use spv_tree::syntax::{Designator, Formula, Name, Selector, Several, Statement, StatementForm};
use spv_tree::tokens::{Sign, Token};
use std::alloc::Global;

// Reads arguments.
struct ArgumentReader;

impl PartReader<Formula> for ArgumentReader {
    ghost reader = { read_inner };

    fn read(alloc: Global, levels: u32, tokens: &[Token]) -> Result<(Formula, &[Token]), Fault> {
        inner(alloc, levels, tokens)
    }
}

// Arguments in a box.
#[inline(never)]
fn arguments(
    alloc: Global,
    levels: u32,
    tokens: &[Token],
) -> Result<(Box<Several<Formula>>, &[Token]), Fault>
    ensures read { IfOk result (λ r. several_of (kind.Sign sign.Comma) (read_inner levels) tokens.now ≡ Read (r.0.value, r.1.now)) }
    ensures absent { (s : Stop) → IsErrAnd result (IsStop s) → several_of (kind.Sign sign.Comma) (read_inner levels) tokens.now ≡ Halted s }
{
    let (read, rest) = several::<ArgumentReader, Formula>(alloc, levels, Sign::Comma, tokens)?;
    Ok((Box::new(alloc, read)?, rest))
}

// A designator in a box.
#[inline(never)]
fn boxed_designator(
    alloc: Global,
    levels: u32,
    tokens: &[Token],
) -> Result<(Box<Designator>, &[Token]), Fault>
    ensures read { IfOk result (λ r. read_designator (read_inner levels) tokens.now ≡ Read (r.0.value, r.1.now)) }
    ensures absent { (s : Stop) → IsErrAnd result (IsStop s) → read_designator (read_inner levels) tokens.now ≡ Halted s }
{
    let (read, rest) = designator(alloc, levels, tokens)?;
    Ok((Box::new(alloc, read)?, rest))
}

// "(" formula {"," formula} ")", behind a name and the bracket
fn call(
    alloc: Global,
    levels: u32,
    name: Name,
    tokens: &[Token],
) -> Result<(Statement, &[Token]), Fault>
    ensures read { IfOk result (λ r. read_call (read_inner levels) name tokens.now ≡ Read (r.0, r.1.now)) }
    ensures absent { (s : Stop) → IsErrAnd result (IsStop s) → read_call (read_inner levels) name tokens.now ≡ Halted s }
{
    let (given, rest) = arguments(alloc, levels, tokens)?;
    let rest = past_sign(Sign::CloseParenthesis, rest)?;
    let line = name.line;
    let form = StatementForm::Call(name, Some(given));
    Ok((Statement { line, form }, rest))
}

// "(" designator ")", behind NEW on this line
pub fn creation(
    alloc: Global,
    levels: u32,
    line: u32,
    tokens: &[Token],
) -> Result<(Statement, &[Token]), Fault>
    ensures read { IfOk result (λ r. read_creation (read_inner levels) line tokens.now ≡ Read (r.0, r.1.now)) }
    ensures absent { (s : Stop) → IsErrAnd result (IsStop s) → read_creation (read_inner levels) line tokens.now ≡ Halted s }
{
    let rest = past_sign(Sign::OpenParenthesis, tokens)?;
    let (place, rest) = boxed_designator(alloc, levels, rest)?;
    let rest = past_sign(Sign::CloseParenthesis, rest)?;
    let form = StatementForm::New(place);
    Ok((Statement { line, form }, rest))
}

// formula, behind a name, its selectors and the sign
#[inline(never)]
fn assigned(
    alloc: Global,
    levels: u32,
    name: Name,
    behind: Vec<Selector>,
    tokens: &[Token],
) -> Result<(Statement, &[Token]), Fault>
    ensures read { IfOk result (λ r. read_assigned levels name (selectors_of behind.items) tokens.now ≡ Read (r.0, r.1.now)) }
    ensures absent { (s : Stop) → IsErrAnd result (IsStop s) → read_assigned levels name (selectors_of behind.items) tokens.now ≡ Halted s }
{
    let line = name.line;
    let place = Box::new(alloc, Designator { name, behind })?;
    let (value, rest) = formula(alloc, levels, tokens)?;
    let form = StatementForm::Assignment(place, value);
    Ok((Statement { line, form }, rest))
}

// [":=" formula], behind a name and its selectors
fn becomes(
    alloc: Global,
    levels: u32,
    name: Name,
    behind: Vec<Selector>,
    tokens: &[Token],
) -> Result<(Statement, &[Token]), Fault>
    ensures read { IfOk result (λ r. read_becomes (read_formula levels) (read_inner levels) name (selectors_of behind.items) tokens.now ≡ Read (r.0, r.1.now)) }
    ensures absent { (s : Stop) → IsErrAnd result (IsStop s) → read_becomes (read_formula levels) (read_inner levels) name (selectors_of behind.items) tokens.now ≡ Halted s }
{
    if is_sign(Sign::Becomes, tokens) {
        return assigned(alloc, levels, name, behind, after(tokens));
    }
    match behind.as_slice() {
        [] => {
            let line = name.line;
            let form = StatementForm::Call(name, None);
            Ok((Statement { line, form }, tokens))
        }
        _ => Err(unexpected(tokens)),
    }
}

// What begins with this name.
pub fn action(
    alloc: Global,
    levels: u32,
    name: Name,
    tokens: &[Token],
) -> Result<(Statement, &[Token]), Fault>
    ensures read { IfOk result (λ r. read_action (read_formula levels) (read_inner levels) name tokens.now ≡ Read (r.0, r.1.now)) }
    ensures absent { (s : Stop) → IsErrAnd result (IsStop s) → read_action (read_formula levels) (read_inner levels) name tokens.now ≡ Halted s }
{
    if is_sign(Sign::OpenParenthesis, tokens) {
        return call(alloc, levels, name, after(tokens));
    }
    let (behind, rest) = selectors(alloc, levels, tokens)?;
    becomes(alloc, levels, name, behind, rest)
}
