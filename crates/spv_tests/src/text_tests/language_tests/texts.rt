//! What the tests share.

use spv_logic::names::Names;
use spv_parser::SyntaxFault;
use spv_parser::language::{LanguageFault, formula, program, rules};
use spv_tree::syntax::{FormulaText, Program, RuleTree};
use std::alloc::Global;

// What is read of a text, with a table of its own.
pub(crate) fn program_of(alloc: Global, text: &str) -> Result<Program, LanguageFault> {
    let mut names = Names::new(alloc);
    program(alloc, text.as_bytes(), &mut names)
}

pub(crate) fn rules_of(alloc: Global, text: &str) -> Result<RuleTree, LanguageFault> {
    let mut names = Names::new(alloc);
    rules(alloc, text.as_bytes(), &mut names)
}

pub(crate) fn formula_of(alloc: Global, text: &str) -> Result<FormulaText, LanguageFault> {
    let mut names = Names::new(alloc);
    formula(alloc, text.as_bytes(), &mut names)
}

// The fault of a text, where it has one.
pub(crate) fn rules_fault(alloc: Global, text: &str) -> Option<LanguageFault> {
    rules_of(alloc, text).err()
}

pub(crate) fn formula_fault(alloc: Global, text: &str) -> Option<LanguageFault> {
    formula_of(alloc, text).err()
}

// The fault of tokens that no tree reads.
pub(crate) fn no_tree(line: u32) -> Option<LanguageFault> {
    Some(LanguageFault::Tree(SyntaxFault::Syntax(line)))
}
