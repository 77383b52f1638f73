// The tree of a text.

ghost use Rattle.std.specs.Prelude.{◌≡◌, ◌<◌, ◌≤◌, ◌++◌, ℕ, List, All, length, IfOk, IfErr, OnOk, OnErr};
ghost use Rattle.spv_lexer.specs.Tokens.{IsInTable};
ghost use Rattle.spv_tree.specs.syntax.Reads.{Reads, ReadsRules, ReadsFormulaText};
ghost use Rattle.spv_parser.specs.language.Texts.{tokens_of, names_with, longest_text, AreNamesOfSome, IsTreeOf, IsFaultOf};

use crate::language::LanguageFault;
use spv_logic::names::Names;
use spv_tree::syntax::{FormulaText, Program, RuleTree};
use std::alloc::Global;

/// The program that a text is. Its names are put behind those of the table, in the order in which they first stand in the text.
///
/// Where the text is no program, the table has the names of some first tokens of the text.
pub fn program(alloc: Global, text: &[u8], names: &mut Names) -> Result<Program, LanguageFault>
    requires { length names.old < 2143289344 }
    ensures tree { IfOk result (IsTreeOf Reads names.old text.now) }
    ensures names { OnOk result (names.new ≡ names_with names.old text.now) }
    ensures in_table { OnOk result (All (λ t. IsInTable names.new t.kind) (tokens_of names.old text.now)) }
    ensures few { OnOk result (length (tokens_of names.old text.now) ≤ longest_text) }
    ensures cause { IfErr result (IsFaultOf Reads names.old text.now) }
    ensures grown { OnErr result (AreNamesOfSome names.old text.now names.new) }
    ensures kept { (more : List (List ℕ)) × (names.new ≡ names.old ++ more) }
{
    let tokens = spv_lexer::tokens(alloc, text, names)?;
    let tree = crate::program(alloc, &tokens)?;
    Ok(tree)
}

/// The rules that a text is. Its names go into the table as those of a program do.
pub fn rules(alloc: Global, text: &[u8], names: &mut Names) -> Result<RuleTree, LanguageFault>
    requires { length names.old < 2143289344 }
    ensures tree { IfOk result (IsTreeOf ReadsRules names.old text.now) }
    ensures names { OnOk result (names.new ≡ names_with names.old text.now) }
    ensures in_table { OnOk result (All (λ t. IsInTable names.new t.kind) (tokens_of names.old text.now)) }
    ensures few { OnOk result (length (tokens_of names.old text.now) ≤ longest_text) }
    ensures cause { IfErr result (IsFaultOf ReadsRules names.old text.now) }
    ensures grown { OnErr result (AreNamesOfSome names.old text.now names.new) }
    ensures kept { (more : List (List ℕ)) × (names.new ≡ names.old ++ more) }
{
    let tokens = spv_lexer::tokens(alloc, text, names)?;
    let tree = crate::rules(alloc, &tokens)?;
    Ok(tree)
}

/// The formula text that a text is. Its names go into the table as those of a program do.
pub fn formula(alloc: Global, text: &[u8], names: &mut Names) -> Result<FormulaText, LanguageFault>
    requires { length names.old < 2143289344 }
    ensures tree { IfOk result (IsTreeOf ReadsFormulaText names.old text.now) }
    ensures names { OnOk result (names.new ≡ names_with names.old text.now) }
    ensures in_table { OnOk result (All (λ t. IsInTable names.new t.kind) (tokens_of names.old text.now)) }
    ensures few { OnOk result (length (tokens_of names.old text.now) ≤ longest_text) }
    ensures cause { IfErr result (IsFaultOf ReadsFormulaText names.old text.now) }
    ensures grown { OnErr result (AreNamesOfSome names.old text.now names.new) }
    ensures kept { (more : List (List ℕ)) × (names.new ≡ names.old ++ more) }
{
    let tokens = spv_lexer::tokens(alloc, text, names)?;
    let tree = crate::formula(alloc, &tokens)?;
    Ok(tree)
}
