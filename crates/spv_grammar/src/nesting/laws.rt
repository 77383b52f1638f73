// Facts about the definitions, each the contract of a function that does nothing.

ghost use Rattle.std.specs.Prelude.{◌≡◌, ◌≤◌, List, None};
ghost use Rattle.spv_tree.specs.declared.tokens.token.Token.{Token};
ghost use Rattle.spv_tree.specs.syntax.Members.{in_kinds};
ghost use Rattle.spv_tree.specs.syntax.FormulaSpelling.{designator_spelling, formula_spelling};
ghost use Rattle.spv_tree.specs.syntax.ProgramSpelling.{program_spelling};
ghost use Rattle.spv_tree.specs.syntax.RuleSpelling.{formula_text_spelling, rule_tree_spelling};
ghost use Rattle.spv_tree.specs.syntax.StatementSpelling.{block_spelling, statement_spelling};
ghost use Rattle.spv_tree.specs.syntax.TypeSpelling.{type_spelling};
ghost use Rattle.spv_tree.specs.syntax.Reads.{kinds, Reads, ReadsRules, ReadsFormulaText};
ghost use Rattle.spv_grammar.specs.reading.RoutineReaders.{read_program};
ghost use Rattle.spv_grammar.specs.reading.RuleReaders.{read_rules, read_formula_text};
ghost use Rattle.spv_grammar.specs.reading.Depths.{formula_depth, designator_depth, statement_depth, block_depth, type_depth, program_depth, rule_tree_depth, formula_text_depth};
ghost use Rattle.spv_grammar.specs.nesting.Level.{at_first, highest, too_deep};
ghost use Rattle.spv_grammar.specs.nesting.Laws.{GoesUpBy, IsShallow, LowIsRead};

/// A text is too deep exactly where the level goes above 200 on the way over its tokens.
pub fn law_level()
    ensures low { (tokens : List Token) → too_deep tokens ≡ None → highest at_first (kinds tokens) ≤ 200 }
    ensures none { (tokens : List Token) → highest at_first (kinds tokens) ≤ 200 → too_deep tokens ≡ None }
{}

/// On the way over a part the level goes up by as many levels as the part has, wherever the part stands.
pub fn law_depth()
    ensures formulas { GoesUpBy formula_depth (formula_spelling in_kinds) }
    ensures designators { GoesUpBy designator_depth (designator_spelling in_kinds) }
    ensures statements { GoesUpBy statement_depth (statement_spelling in_kinds) }
    ensures blocks { GoesUpBy block_depth (block_spelling in_kinds) }
    ensures types { GoesUpBy type_depth (type_spelling in_kinds) }
{}

/// So a text that is nowhere too deep has less than 200 levels, and so has each part that stands in it.
pub fn law_shallow()
    ensures formulas { IsShallow formula_depth (formula_spelling in_kinds) }
    ensures designators { IsShallow designator_depth (designator_spelling in_kinds) }
    ensures statements { IsShallow statement_depth (statement_spelling in_kinds) }
    ensures blocks { IsShallow block_depth (block_spelling in_kinds) }
    ensures types { IsShallow type_depth (type_spelling in_kinds) }
    ensures programs { IsShallow program_depth (program_spelling in_kinds) }
    ensures rules { IsShallow rule_tree_depth (rule_tree_spelling in_kinds) }
    ensures formula_texts { IsShallow formula_text_depth (formula_text_spelling in_kinds) }
{}

/// And where a tree reads a program that is nowhere too deep, 199 levels are enough to find it.
pub fn law_enough()
    ensures programs { LowIsRead read_program Reads }
{}

/// The same of a rule file.
pub fn law_enough_rules()
    ensures rules { LowIsRead read_rules ReadsRules }
{}

/// The same of a formula text.
pub fn law_enough_formula_text()
    ensures formula_texts { LowIsRead read_formula_text ReadsFormulaText }
{}
