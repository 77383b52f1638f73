// Routines: headings, clauses, and where routines begin.

ghost use Rattle.std.specs.Prelude.{◌≡◌, Some, None, IfOk, IsErrAnd};
ghost use Rattle.spv_tree.specs.declared.tokens.token.TokenKind.TheVariants as kind;
ghost use Rattle.spv_tree.specs.declared.tokens.token.Word.TheVariants as word;
ghost use Rattle.spv_tree.specs.declared.tokens.token.Sign.TheVariants as sign;
ghost use Rattle.spv_grammar.specs.reading.Readers as reader;
ghost use Rattle.spv_grammar.specs.reading.RoutineReaders as routine;
ghost use Rattle.spv_grammar.specs.reading.Readers.{Stop, Read, Halted};
ghost use Rattle.spv_formula_parser.specs.primitives.Faults.{IsStop};
ghost use Rattle.spv_routine_parser.specs.RoutineParts.{read_initial};

use crate::type_parser::declarations::{DeclarationReader, name_or_class};
use crate::type_parser::types::names;
use spv_formula_parser::formulas::formula;
use spv_formula_parser::primitives::fault::{Fault, unexpected};
use spv_formula_parser::primitives::front::{
    after, first_line, front, is_sign, is_word, name, past_sign,
};
use spv_formula_parser::primitives::lists::{PartReader, headed, several};
use spv_tree::syntax::{
    Clauses, Const, Formula, GlobalGroup, Group, GroupForm, Heading, HeadingForm, Item, Locals,
    Name, Params, RoutineMark, Several, Start, Vars,
};
use spv_tree::tokens::{Sign, Token, TokenKind, Word};
use std::alloc::Global;

// ":" name
fn typed_name(tokens: &[Token]) -> Result<(Name, &[Token]), Fault>
    ensures read { IfOk result (λ r. routine.typed_name tokens.now ≡ Read (r.0, r.1.now)) }
    ensures absent { (s : Stop) → IsErrAnd result (IsStop s) → routine.typed_name tokens.now ≡ Halted s }
{
    let rest = past_sign(Sign::Colon, tokens)?;
    name(rest)
}

// names ":" name
fn variables(
    alloc: Global,
    by_place: bool,
    tokens: &[Token],
) -> Result<(GroupForm, &[Token]), Fault>
    ensures read { IfOk result (λ r. routine.read_variables by_place tokens.now ≡ Read (r.0, r.1.now)) }
    ensures absent { (s : Stop) → IsErrAnd result (IsStop s) → routine.read_variables by_place tokens.now ≡ Halted s }
{
    let (names, rest) = names(alloc, tokens)?;
    let (of, rest) = typed_name(rest)?;
    Ok((GroupForm::Variables(by_place, names, of), rest))
}

// [VAR] names ":" name | PROCEDURE names | FUNCTION names ":" name
fn group_form(alloc: Global, tokens: &[Token]) -> Result<(GroupForm, &[Token]), Fault>
    ensures read { IfOk result (λ r. routine.group_on (reader.front tokens.now) tokens.now ≡ Read (r.0, r.1.now)) }
    ensures absent { (s : Stop) → IsErrAnd result (IsStop s) → routine.group_on (reader.front tokens.now) tokens.now ≡ Halted s }
{
    match front(tokens) {
        Some(TokenKind::Word(Word::Var)) => variables(alloc, true, after(tokens)),
        Some(TokenKind::Word(Word::Procedure)) => {
            let (names, rest) = names(alloc, after(tokens))?;
            Ok((GroupForm::Procedures(names), rest))
        }
        Some(TokenKind::Word(Word::Function)) => {
            let (names, rest) = names(alloc, after(tokens))?;
            let (of, rest) = typed_name(rest)?;
            Ok((GroupForm::Functions(names, of), rest))
        }
        _ => variables(alloc, false, tokens),
    }
}

// Reads the parts of headings and clauses of which there are lists.
struct RoutineReader;

// [VAR] names ":" name | PROCEDURE names | FUNCTION names ":" name
impl PartReader<Group> for RoutineReader {
    ghost reader = { λ n. routine.read_group };

    fn read(alloc: Global, _levels: u32, tokens: &[Token]) -> Result<(Group, &[Token]), Fault> {
        let line = first_line(tokens);
        let (form, rest) = group_form(alloc, tokens)?;
        Ok((Group { line, form }, rest))
    }
}

// ["(" group {";" group} ")"]
fn params(alloc: Global, tokens: &[Token]) -> Result<(Option<Params>, &[Token]), Fault>
    ensures read { IfOk result (λ r. routine.read_params tokens.now ≡ Read (r.0, r.1.now)) }
    ensures absent { (s : Stop) → IsErrAnd result (IsStop s) → routine.read_params tokens.now ≡ Halted s }
{
    if !is_sign(Sign::OpenParenthesis, tokens) {
        return Ok((None, tokens));
    }
    let line = first_line(tokens);
    let (groups, rest) = several::<RoutineReader, Group>(alloc, 0, Sign::Semicolon, after(tokens))?;
    let rest = past_sign(Sign::CloseParenthesis, rest)?;
    Ok((Some(Params { line, groups }), rest))
}

// [":" name]
fn result_type(tokens: &[Token]) -> Result<(Option<Name>, &[Token]), Fault>
    ensures read { IfOk result (λ r. routine.read_result tokens.now ≡ Read (r.0, r.1.now)) }
    ensures absent { (s : Stop) → IsErrAnd result (IsStop s) → routine.read_result tokens.now ≡ Halted s }
{
    if !is_sign(Sign::Colon, tokens) {
        return Ok((None, tokens));
    }
    let (of, rest) = name(after(tokens))?;
    Ok((Some(of), rest))
}

// PROCEDURE name [params] | FUNCTION name [params] [":" name]
fn heading_form(alloc: Global, tokens: &[Token]) -> Result<(HeadingForm, &[Token]), Fault>
    ensures read { IfOk result (λ r. routine.heading_on (reader.front tokens.now) tokens.now ≡ Read (r.0, r.1.now)) }
    ensures absent { (s : Stop) → IsErrAnd result (IsStop s) → routine.heading_on (reader.front tokens.now) tokens.now ≡ Halted s }
{
    match front(tokens) {
        Some(TokenKind::Word(Word::Procedure)) => {
            let (name, rest) = name(after(tokens))?;
            let (params, rest) = params(alloc, rest)?;
            Ok((HeadingForm::Procedure(name, params), rest))
        }
        Some(TokenKind::Word(Word::Function)) => {
            let (name, rest) = name(after(tokens))?;
            let (params, rest) = params(alloc, rest)?;
            let (of, rest) = result_type(rest)?;
            Ok((HeadingForm::Function(name, params, of), rest))
        }
        _ => Err(unexpected(tokens)),
    }
}

// heading ";"
fn heading(alloc: Global, tokens: &[Token]) -> Result<(Heading, &[Token]), Fault>
    ensures read { IfOk result (λ r. reader.ended (kind.Sign sign.Semicolon) routine.read_heading tokens.now ≡ Read (r.0, r.1.now)) }
    ensures absent { (s : Stop) → IsErrAnd result (IsStop s) → reader.ended (kind.Sign sign.Semicolon) routine.read_heading tokens.now ≡ Halted s }
{
    let line = first_line(tokens);
    let (form, rest) = heading_form(alloc, tokens)?;
    let rest = past_sign(Sign::Semicolon, rest)?;
    Ok((Heading { line, form }, rest))
}

// Whether the tokens begin with the first word of a heading.
pub fn begins_heading(tokens: &[Token]) -> bool
    ensures { result ≡ routine.begins_heading (reader.front tokens.now) }
{
    matches!(
        front(tokens),
        Some(TokenKind::Word(Word::Procedure | Word::Function))
    )
}

// name | "#" name
fn item(tokens: &[Token]) -> Result<(Item, &[Token]), Fault>
    ensures read { IfOk result (λ r. routine.read_item tokens.now ≡ Read (r.0, r.1.now)) }
    ensures absent { (s : Stop) → IsErrAnd result (IsStop s) → routine.read_item tokens.now ≡ Halted s }
{
    let line = first_line(tokens);
    let (form, rest) = name_or_class(tokens)?;
    Ok((Item { line, form }, rest))
}

impl PartReader<Item> for RoutineReader {
    ghost reader = { λ n. routine.read_item };

    fn read(_alloc: Global, _levels: u32, tokens: &[Token]) -> Result<(Item, &[Token]), Fault> {
        item(tokens)
    }
}

// [VAR] item {"," item}
impl PartReader<GlobalGroup> for RoutineReader {
    ghost reader = { λ n. routine.read_global_group };

    fn read(
        alloc: Global,
        _levels: u32,
        tokens: &[Token],
    ) -> Result<(GlobalGroup, &[Token]), Fault> {
        let line = first_line(tokens);
        let by_place = is_word(Word::Var, tokens);
        let behind = if by_place { after(tokens) } else { tokens };
        let (items, rest) = several::<RoutineReader, Item>(alloc, 0, Sign::Comma, behind)?;
        let group = GlobalGroup {
            line,
            by_place,
            items,
        };
        Ok((group, rest))
    }
}

// [GLOBAL "(" ggroup {";" ggroup} ")" ";"]
fn globals(
    alloc: Global,
    tokens: &[Token],
) -> Result<(Option<Several<GlobalGroup>>, &[Token]), Fault>
    ensures read { IfOk result (λ r. reader.optional (kind.Word word.Global) routine.read_global_groups tokens.now ≡ Read (r.0, r.1.now)) }
    ensures absent { (s : Stop) → IsErrAnd result (IsStop s) → reader.optional (kind.Word word.Global) routine.read_global_groups tokens.now ≡ Halted s }
{
    if !is_word(Word::Global, tokens) {
        return Ok((None, tokens));
    }
    let rest = past_sign(Sign::OpenParenthesis, after(tokens))?;
    let (groups, rest) = several::<RoutineReader, GlobalGroup>(alloc, 0, Sign::Semicolon, rest)?;
    let rest = past_sign(Sign::CloseParenthesis, rest)?;
    let rest = past_sign(Sign::Semicolon, rest)?;
    Ok((Some(groups), rest))
}

// item "=" name
impl PartReader<Start> for RoutineReader {
    ghost reader = { λ n. routine.read_start };

    fn read(_alloc: Global, _levels: u32, tokens: &[Token]) -> Result<(Start, &[Token]), Fault> {
        let line = first_line(tokens);
        let (item, rest) = item(tokens)?;
        let rest = past_sign(Sign::Equal, rest)?;
        let (name, rest) = name(rest)?;
        Ok((Start { line, item, name }, rest))
    }
}

// [INITIAL start {"," start} ";"]
fn initial(alloc: Global, tokens: &[Token]) -> Result<(Option<Several<Start>>, &[Token]), Fault>
    ensures read { IfOk result (λ r. read_initial tokens.now ≡ Read (r.0, r.1.now)) }
    ensures absent { (s : Stop) → IsErrAnd result (IsStop s) → read_initial tokens.now ≡ Halted s }
{
    if !is_word(Word::Initial, tokens) {
        return Ok((None, tokens));
    }
    let (starts, rest) = several::<RoutineReader, Start>(alloc, 0, Sign::Comma, after(tokens))?;
    let rest = past_sign(Sign::Semicolon, rest)?;
    Ok((Some(starts), rest))
}

// [ENTRY formula ";"] or [EXIT formula ";"], as the word says
pub fn condition(
    alloc: Global,
    levels: u32,
    word: Word,
    tokens: &[Token],
) -> Result<(Option<Formula>, &[Token]), Fault>
    ensures read { IfOk result (λ r. routine.read_condition levels (kind.Word word) tokens.now ≡ Read (r.0, r.1.now)) }
    ensures absent { (s : Stop) → IsErrAnd result (IsStop s) → routine.read_condition levels (kind.Word word) tokens.now ≡ Halted s }
{
    if !is_word(word, tokens) {
        return Ok((None, tokens));
    }
    let (formula, rest) = formula(alloc, levels, after(tokens))?;
    let rest = past_sign(Sign::Semicolon, rest)?;
    Ok((Some(formula), rest))
}

// [GLOBAL ..] [INITIAL ..] [ENTRY formula ";"] [EXIT formula ";"]
fn clauses(alloc: Global, levels: u32, tokens: &[Token]) -> Result<(Clauses, &[Token]), Fault>
    ensures read { IfOk result (λ r. routine.read_clauses levels tokens.now ≡ Read (r.0, r.1.now)) }
    ensures absent { (s : Stop) → IsErrAnd result (IsStop s) → routine.read_clauses levels tokens.now ≡ Halted s }
{
    let line = first_line(tokens);
    let (globals, rest) = globals(alloc, tokens)?;
    let (initial, rest) = initial(alloc, rest)?;
    let (entry, rest) = condition(alloc, levels, Word::Entry, rest)?;
    let (exit, rest) = condition(alloc, levels, Word::Exit, rest)?;
    let clauses = Clauses {
        line,
        globals,
        initial,
        entry,
        exit,
    };
    Ok((clauses, rest))
}

// [CONST const {const}] [VAR vars {vars}]
fn locals(alloc: Global, levels: u32, tokens: &[Token]) -> Result<(Locals, &[Token]), Fault>
    ensures read { IfOk result (λ r. routine.read_locals levels tokens.now ≡ Read (r.0, r.1.now)) }
    ensures absent { (s : Stop) → IsErrAnd result (IsStop s) → routine.read_locals levels tokens.now ≡ Halted s }
{
    let line = first_line(tokens);
    let (constants, rest) = headed::<DeclarationReader, Const>(alloc, levels, Word::Const, tokens)?;
    let (variables, rest) = headed::<DeclarationReader, Vars>(alloc, levels, Word::Var, rest)?;
    let locals = Locals {
        line,
        constants,
        variables,
    };
    Ok((locals, rest))
}

// FORWARD ";" or the body up to its routines, behind the clauses
fn mark_behind(
    alloc: Global,
    levels: u32,
    heading: Heading,
    clauses: Clauses,
    tokens: &[Token],
) -> Result<(RoutineMark, &[Token]), Fault>
    ensures read { IfOk result (λ r. routine.read_mark_behind levels heading clauses tokens.now ≡ Read (r.0, r.1.now)) }
    ensures absent { (s : Stop) → IsErrAnd result (IsStop s) → routine.read_mark_behind levels heading clauses tokens.now ≡ Halted s }
{
    if is_word(Word::Forward, tokens) {
        let rest = past_sign(Sign::Semicolon, after(tokens))?;
        Ok((RoutineMark::Announced(heading, clauses), rest))
    } else {
        let (locals, rest) = locals(alloc, levels, tokens)?;
        Ok((RoutineMark::Begins(heading, clauses, locals), rest))
    }
}

// heading ";" clauses, and what stands behind them
pub fn mark(alloc: Global, levels: u32, tokens: &[Token]) -> Result<(RoutineMark, &[Token]), Fault>
    ensures read { IfOk result (λ r. routine.read_mark levels tokens.now ≡ Read (r.0, r.1.now)) }
    ensures absent { (s : Stop) → IsErrAnd result (IsStop s) → routine.read_mark levels tokens.now ≡ Halted s }
{
    let (heading, rest) = heading(alloc, tokens)?;
    let (clauses, rest) = clauses(alloc, levels, rest)?;
    mark_behind(alloc, levels, heading, clauses, rest)
}
