// The rules of a rule file for a program.

ghost use Rattle.std.specs.Prelude.{◌≡◌, ◌<◌, [], map, length, option_copied, IfErr, IfOk, IsTrue, Ok, OnOk};
ghost use Rattle.spv_parser.specs.language.Texts.{names_with, IsTreeOf};
ghost use Rattle.spv_program.specs.Programs.{shapes};
ghost use Rattle.spv_program.specs.Typing.{well_typed};
ghost use Rattle.spv_rule_files.specs.Right.{AreRight};
ghost use Rattle.spv_rule_files.specs.Rules.{rules_walk};
ghost use Rattle.spv_rule_files.specs.rule_terms.RuleTerms.{rule_of};
ghost use Rattle.spv_rules.specs.RuleSets.{rules_in};
ghost use Rattle.spv_tree.specs.syntax.Reads.{ReadsRules};
ghost use Rattle.spv_typing.specs.Known.{known_in};
ghost use Rattle.spv_verify.specs.declared.refused.fault.TextFault.TheVariants.{Memory};
ghost use Rattle.spv_verify.specs.tree_reports.RuleFiles.{AreFileRules, AreRulesOf, IsFileCause, IsRuleReadingCause, IsRuleWalkCause, IsRulesCause, names_under};
ghost use Rattle.spv_verify.specs.tree_reports.Walks.{IsOfTree};

use crate::refused::{TextFault, of_rules, of_text};
use crate::tree_reports::arenas::rule_arena;
use spv_logic::list::List;
use spv_logic::names::Names;
use spv_parser::language::rules;
use spv_program::typed::Program;
use spv_rule_files::rule_terms::{law_rule_terms, rules_of};
use spv_rule_files::{TypedRule, law_rules, read};
use spv_rules::Rules;
use spv_tree::syntax::RuleTree;
use std::alloc::Global;

// The tree of a rule file, or what its text is refused for.
#[tactic(auto, using(crate::proofs::tree_reports::RuleCauses::reading_cause))]
fn rule_tree(alloc: Global, text: &[u8], names: &mut Names) -> Result<RuleTree, TextFault>
    requires few { length names.old < 2143289344 }
    ensures tree { IfOk result (IsTreeOf ReadsRules names.old text.now) }
    ensures names { OnOk result (names.new ≡ names_with names.old text.now) }
    ensures cause { IfErr result (IsRuleReadingCause names.old text.now) }
{
    match rules(alloc, text, names) {
        Ok(tree) => Ok(tree),
        Err(fault) => Err(of_text(alloc, fault)),
    }
}

// The rules of a tree with each name resolved, or what the tree is refused for.
#[tactic(auto, using(crate::proofs::tree_reports::RuleCauses::walk_cause))]
fn typed_rules(
    alloc: Global,
    tree: &RuleTree,
    program: &Program,
    names: &Names,
) -> Result<List<TypedRule>, TextFault>
    ensures typed { IfOk result (λ list. rules_walk (known_in names.now) program.now tree.now ≡ Ok list) }
    ensures cause { IfErr result (IsRuleWalkCause names.now program.now tree.now) }
{
    match read(alloc, tree, program, names) {
        Ok(list) => Ok(list),
        Err(fault) => Err(of_rules(alloc, names, fault)),
    }
}

// These rules as terms.
fn made_rules(alloc: Global, program: &Program, list: &[TypedRule]) -> Result<Rules, TextFault>
    requires typed { IsTrue (well_typed program.now) }
    requires right { AreRight program.now list.now }
    ensures rules { IfOk result (λ r. rules_in r ≡ map rule_of list.now) }
    ensures shapes { IfOk result (λ r. r.arena.shapes ≡ shapes program.now) }
    ensures decls { IfOk result (λ r. r.arena.decls ≡ program.now.symbols) }
    ensures memory { IfErr result (λ fault. fault ≡ Memory) }
{
    law_rule_terms();
    let terms = rule_arena(alloc, program)?;
    match rules_of(alloc, terms, list) {
        Ok(rules) => Ok(rules),
        Err(_) => Err(TextFault::Memory),
    }
}

// The rules of a rule file, or what it is refused for.
fn file_rules(
    alloc: Global,
    text: &[u8],
    program: &Program,
    names: &mut Names,
) -> Result<Rules, TextFault>
    requires few { length names.old < 2143289344 }
    requires typed { IsTrue (well_typed program.now) }
    requires of_tree { IsOfTree program.now }
    ensures rules { IfOk result (λ r. AreFileRules names.old program.now text.now (rules_in r)) }
    ensures shapes { IfOk result (λ r. r.arena.shapes ≡ shapes program.now) }
    ensures decls { IfOk result (λ r. r.arena.decls ≡ program.now.symbols) }
    ensures names { OnOk result (names.new ≡ names_with names.old text.now) }
    ensures cause { IfErr result (IsFileCause names.old program.now text.now) }
{
    law_rules();
    let tree = match rule_tree(alloc, text, names) {
        Ok(tree) => tree,
        Err(fault) => return Err(fault),
    };
    let list = match typed_rules(alloc, &tree, program, names) {
        Ok(list) => list,
        Err(fault) => return Err(fault),
    };
    made_rules(alloc, program, list.as_slice())
}

// No rules, over a program's types and symbols.
fn no_rules(alloc: Global, program: &Program) -> Result<Rules, TextFault>
    requires typed { IsTrue (well_typed program.now) }
    ensures rules { IfOk result (λ r. rules_in r ≡ []) }
    ensures shapes { IfOk result (λ r. r.arena.shapes ≡ shapes program.now) }
    ensures decls { IfOk result (λ r. r.arena.decls ≡ program.now.symbols) }
    ensures memory { IfErr result (λ fault. fault ≡ Memory) }
{
    let terms = rule_arena(alloc, program)?;
    Ok(Rules::new(alloc, terms))
}

/// The rules of a rule file for a program, and none where there is no such file; or what the file is refused for. The names of the file
/// are entered behind those of the program. The program is one of a tree.
pub(crate) fn rules_for(
    alloc: Global,
    text: Option<&[u8]>,
    program: &Program,
    names: &mut Names,
) -> Result<Rules, TextFault>
    requires few { length names.old < 2143289344 }
    requires typed { IsTrue (well_typed program.now) }
    requires of_tree { IsOfTree program.now }
    ensures rules { IfOk result (λ r. AreRulesOf names.old program.now (option_copied text.entry) (rules_in r)) }
    ensures shapes { IfOk result (λ r. r.arena.shapes ≡ shapes program.now) }
    ensures decls { IfOk result (λ r. r.arena.decls ≡ program.now.symbols) }
    ensures names { OnOk result (names.new ≡ names_under names.old (option_copied text.entry)) }
    ensures cause { IfErr result (IsRulesCause names.old program.now (option_copied text.entry)) }
{
    match text {
        Some(text) => file_rules(alloc, text, program, names),
        None => no_rules(alloc, program),
    }
}
