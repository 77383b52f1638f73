// The tree of a whole text.

ghost use Rattle.std.specs.Prelude.{◌≤◌, OnOk, IfOk, IfErr};
ghost use Rattle.spv_tree.specs.syntax.Reads.{Reads, ReadsRules, ReadsFormulaText};
ghost use Rattle.spv_formula_parser.specs.declared.primitives.fault.Fault.TheVariants.{Syntax};
ghost use Rattle.spv_parser.specs.Causes.{IsAllowed, HasTreeCause, IsForbidden, IsRefusalOf};

use crate::formula_texts::formula_text;
use crate::lines::line_where;
use crate::programs::program_at;
use crate::refused::SyntaxFault;
use crate::rule_parser::rules::rule_file;
use spv_formula_parser::primitives::fault::Fault;
use spv_grammar::expected_tokens::{law_formula_text_stops, law_program_stops, law_rule_stops};
use spv_grammar::nesting::{
    law_enough, law_enough_formula_text, law_enough_rules, left_out, too_deep,
};
use spv_grammar::reading::laws::{law_formula_texts, law_programs, law_rules};
use spv_tree::syntax::{FormulaText, Program, RuleTree};
use spv_tree::tokens::Token;
use std::alloc::Global;

// As many levels as no text exceeds that is not too deep.
const LEVELS: u32 = 200;

// Refuses tokens with a word that belongs to nothing that is accepted, and tokens that go too deep.
fn allowed(alloc: Global, tokens: &[Token]) -> Result<(), SyntaxFault>
    ensures allowed { OnOk result (IsAllowed tokens.now) }
    ensures cause { IfErr result (IsForbidden tokens.now) }
{
    if let Some((line, word)) = left_out(tokens) {
        return Err(SyntaxFault::Profile(line, word));
    }
    if let Some(line) = too_deep(alloc, tokens)? {
        return Err(SyntaxFault::TooDeep(line));
    }
    Ok(())
}

// The refusal of tokens of which no part is read for this fault.
fn refusal(tokens: &[Token], fault: Fault) -> SyntaxFault
    ensures { IsRefusalOf tokens.now fault result }
{
    match fault {
        Fault::Syntax(left) => SyntaxFault::Syntax(line_where(tokens, left)),
        Fault::Deep(_) | Fault::Memory => SyntaxFault::Memory,
    }
}

// The refusal of tokens of which so many are left behind what is read.
fn refused_with(tokens: &[Token], left: usize) -> SyntaxFault
    ensures { IsRefusalOf tokens.now (Syntax left) result }
{
    SyntaxFault::Syntax(line_where(tokens, left))
}

// The program that these tokens are, with as many levels as any has or more.
fn program_within(alloc: Global, levels: u32, tokens: &[Token]) -> Result<Program, SyntaxFault>
    requires enough { 199 ≤ levels }
    ensures tree { IfOk result (λ p. Reads tokens.now p) }
    ensures allowed { IfOk result (λ p. IsAllowed tokens.now) }
    ensures cause { IfErr result (HasTreeCause Reads tokens.now) }
{
    law_programs();
    law_enough();
    law_program_stops();
    allowed(alloc, tokens)?;
    match program_at(alloc, levels, tokens) {
        Ok((tree, [])) => Ok(tree),
        Ok((_, rest)) => Err(refused_with(tokens, rest.len())),
        Err(fault) => Err(refusal(tokens, fault)),
    }
}

/// The program that these tokens are.
pub fn program(alloc: Global, tokens: &[Token]) -> Result<Program, SyntaxFault>
    ensures tree { IfOk result (λ p. Reads tokens.now p) }
    ensures allowed { IfOk result (λ p. IsAllowed tokens.now) }
    ensures cause { IfErr result (HasTreeCause Reads tokens.now) }
{
    program_within(alloc, LEVELS, tokens)
}

// The rules that these tokens are, with as many levels as any has or more.
fn rules_within(alloc: Global, levels: u32, tokens: &[Token]) -> Result<RuleTree, SyntaxFault>
    requires enough { 199 ≤ levels }
    ensures tree { IfOk result (λ t. ReadsRules tokens.now t) }
    ensures allowed { IfOk result (λ t. IsAllowed tokens.now) }
    ensures cause { IfErr result (HasTreeCause ReadsRules tokens.now) }
{
    law_rules();
    law_enough_rules();
    law_rule_stops();
    allowed(alloc, tokens)?;
    match rule_file(alloc, levels, tokens) {
        Ok((tree, [])) => Ok(tree),
        Ok((_, rest)) => Err(refused_with(tokens, rest.len())),
        Err(fault) => Err(refusal(tokens, fault)),
    }
}

/// The rules that these tokens are.
pub fn rules(alloc: Global, tokens: &[Token]) -> Result<RuleTree, SyntaxFault>
    ensures tree { IfOk result (λ t. ReadsRules tokens.now t) }
    ensures allowed { IfOk result (λ t. IsAllowed tokens.now) }
    ensures cause { IfErr result (HasTreeCause ReadsRules tokens.now) }
{
    rules_within(alloc, LEVELS, tokens)
}

// The formula text that these tokens are, with as many levels as any has or more.
fn formula_within(alloc: Global, levels: u32, tokens: &[Token]) -> Result<FormulaText, SyntaxFault>
    requires enough { 199 ≤ levels }
    ensures tree { IfOk result (λ t. ReadsFormulaText tokens.now t) }
    ensures allowed { IfOk result (λ t. IsAllowed tokens.now) }
    ensures cause { IfErr result (HasTreeCause ReadsFormulaText tokens.now) }
{
    law_formula_texts();
    law_enough_formula_text();
    law_formula_text_stops();
    allowed(alloc, tokens)?;
    match formula_text(alloc, levels, tokens) {
        Ok(tree) => Ok(tree),
        Err(fault) => Err(refusal(tokens, fault)),
    }
}

/// The formula text that these tokens are.
pub fn formula(alloc: Global, tokens: &[Token]) -> Result<FormulaText, SyntaxFault>
    ensures tree { IfOk result (λ t. ReadsFormulaText tokens.now t) }
    ensures allowed { IfOk result (λ t. IsAllowed tokens.now) }
    ensures cause { IfErr result (HasTreeCause ReadsFormulaText tokens.now) }
{
    formula_within(alloc, LEVELS, tokens)
}
