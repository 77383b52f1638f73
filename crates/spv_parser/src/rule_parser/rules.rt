// Rule files.

ghost use Rattle.std.specs.Prelude.{◌≡◌, ◌∷◌, [], Some, None, IfOk, IsErrAnd};
ghost use Rattle.spv_tree.specs.declared.tokens.token.TokenKind.TheVariants as kind;
ghost use Rattle.spv_grammar.specs.reading.Readers as reader;
ghost use Rattle.spv_grammar.specs.reading.Readers.{Stop, Read, Halted, all_items, starting};
ghost use Rattle.spv_grammar.specs.reading.RuleReaders.{read_rule_vars, read_premise, read_replace, read_infer, read_rule_form, read_rule, read_rules};
ghost use Rattle.spv_grammar.specs.reading.RuleReaders as spec;
ghost use Rattle.spv_formula_parser.specs.primitives.Faults.{IsStop};

use spv_formula_parser::formulas::formula;
use spv_formula_parser::primitives::fault::{Fault, unexpected};
use spv_formula_parser::primitives::front::{
    after, first_line, front, is_word, past_sign, past_word,
};
use spv_formula_parser::primitives::lists::{PartReader, headed};
use spv_logic::list::List;
use spv_routine_parser::type_parser::declarations::sort;
use spv_routine_parser::type_parser::types::names;
use spv_tree::syntax::{Formula, Rule, RuleForm, RuleTree, RuleVars};
use spv_tree::tokens::{Sign, Token, TokenKind, Word};
use std::alloc::Global;

// Reads the variables of rules.
struct RuleVarsReader;

// names ":" sort ";"
impl PartReader<RuleVars> for RuleVarsReader {
    ghost reader = { λ n. read_rule_vars };

    fn read(alloc: Global, levels: u32, tokens: &[Token]) -> Result<(RuleVars, &[Token]), Fault> {
        let line = first_line(tokens);
        let (names, rest) = names(alloc, tokens)?;
        let rest = past_sign(Sign::Colon, rest)?;
        let (sort, rest) = sort(rest)?;
        let rest = past_sign(Sign::Semicolon, rest)?;
        Ok((RuleVars { line, names, sort }, rest))
    }
}

// [WHERE formula] or [FROM formula]
fn premise(
    alloc: Global,
    levels: u32,
    word: Word,
    tokens: &[Token],
) -> Result<(Option<Formula>, &[Token]), Fault>
    ensures read { IfOk result (λ r. read_premise levels (kind.Word word) tokens.now ≡ Read (r.0, r.1.now)) }
    ensures absent { (s : Stop) → IsErrAnd result (IsStop s) → read_premise levels (kind.Word word) tokens.now ≡ Halted s }
{
    if !is_word(word, tokens) {
        return Ok((None, tokens));
    }
    let (read, rest) = formula(alloc, levels, after(tokens))?;
    Ok((Some(read), rest))
}

// formula BY formula [WHERE formula], behind REPLACE
fn replace(alloc: Global, levels: u32, tokens: &[Token]) -> Result<(RuleForm, &[Token]), Fault>
    ensures read { IfOk result (λ r. read_replace levels tokens.now ≡ Read (r.0, r.1.now)) }
    ensures absent { (s : Stop) → IsErrAnd result (IsStop s) → read_replace levels tokens.now ≡ Halted s }
{
    let (left, rest) = formula(alloc, levels, tokens)?;
    let rest = past_word(Word::By, rest)?;
    let (right, rest) = formula(alloc, levels, rest)?;
    let (condition, rest) = premise(alloc, levels, Word::Where, rest)?;
    Ok((RuleForm::Replace(left, right, condition), rest))
}

// formula [FROM formula], behind INFER
fn infer(alloc: Global, levels: u32, tokens: &[Token]) -> Result<(RuleForm, &[Token]), Fault>
    ensures read { IfOk result (λ r. read_infer levels tokens.now ≡ Read (r.0, r.1.now)) }
    ensures absent { (s : Stop) → IsErrAnd result (IsStop s) → read_infer levels tokens.now ≡ Halted s }
{
    let (inferred, rest) = formula(alloc, levels, tokens)?;
    let (condition, rest) = premise(alloc, levels, Word::From, rest)?;
    Ok((RuleForm::Infer(inferred, condition), rest))
}

// REPLACE formula BY formula [WHERE formula] | INFER formula [FROM formula]
fn rule_form(alloc: Global, levels: u32, tokens: &[Token]) -> Result<(RuleForm, &[Token]), Fault>
    ensures read { IfOk result (λ r. read_rule_form levels tokens.now ≡ Read (r.0, r.1.now)) }
    ensures absent { (s : Stop) → IsErrAnd result (IsStop s) → read_rule_form levels tokens.now ≡ Halted s }
{
    let rest = after(tokens);
    match front(tokens) {
        Some(TokenKind::Word(Word::Replace)) => replace(alloc, levels, rest),
        Some(TokenKind::Word(Word::Infer)) => infer(alloc, levels, rest),
        _ => Err(unexpected(tokens)),
    }
}

// The same with the semicolon that ends it.
fn rule(alloc: Global, levels: u32, tokens: &[Token]) -> Result<(Rule, &[Token]), Fault>
    ensures read { IfOk result (λ r. read_rule levels tokens.now ≡ Read (r.0, r.1.now)) }
    ensures absent { (s : Stop) → IsErrAnd result (IsStop s) → read_rule levels tokens.now ≡ Halted s }
{
    let line = first_line(tokens);
    let (form, rest) = rule_form(alloc, levels, tokens)?;
    let rest = past_sign(Sign::Semicolon, rest)?;
    Ok((Rule { line, form }, rest))
}

// Whether the tokens begin with a rule.
fn begins_rule(tokens: &[Token]) -> bool
    ensures { result ≡ spec.begins_rule (reader.front tokens.now) }
{
    matches!(
        front(tokens),
        Some(TokenKind::Word(Word::Replace | Word::Infer))
    )
}

// {rule}
fn rule_list(alloc: Global, levels: u32, tokens: &[Token]) -> Result<(Vec<Rule>, &[Token]), Fault>
    ensures read { IfOk result (λ r. all_items [] ◌∷◌ (starting spec.begins_rule (read_rule levels)) tokens.now ≡ Read (r.0.items, r.1.now)) }
    ensures absent { (s : Stop) → IsErrAnd result (IsStop s) → all_items [] ◌∷◌ (starting spec.begins_rule (read_rule levels)) tokens.now ≡ Halted s }
{
    let mut rules = Vec::new(alloc);
    let mut rest = tokens;
    for _ in 0..tokens.len() {
        if !begins_rule(rest) {
            return Ok((rules, rest));
        }
        let (read, next) = rule(alloc, levels, rest)?;
        rules.push(read)?;
        rest = next;
    }
    Ok((rules, rest))
}

// [VAR rvars {rvars}] {rule}
pub fn rule_file(
    alloc: Global,
    levels: u32,
    tokens: &[Token],
) -> Result<(RuleTree, &[Token]), Fault>
    ensures read { IfOk result (λ r. read_rules levels tokens.now ≡ Read (r.0, r.1.now)) }
    ensures absent { (s : Stop) → IsErrAnd result (IsStop s) → read_rules levels tokens.now ≡ Halted s }
{
    let line = first_line(tokens);
    let (variables, rest) = headed::<RuleVarsReader, RuleVars>(alloc, levels, Word::Var, tokens)?;
    let (rules, rest) = rule_list(alloc, levels, rest)?;
    let rules = List::from_vec(rules);
    let tree = RuleTree {
        line,
        variables,
        rules,
    };
    Ok((tree, rest))
}
