// Facts about the definitions, each the contract of a function that does nothing.

ghost use Rattle.spv_tree.specs.syntax.Reads.{Reads, ReadsRules, ReadsFormulaText};
ghost use Rattle.spv_grammar.specs.reading.FormulaReaders.{read_formula, read_designator, read_inner};
ghost use Rattle.spv_grammar.specs.reading.StatementReaders.{read_statement, read_block};
ghost use Rattle.spv_grammar.specs.reading.TypeReaders.{read_type};
ghost use Rattle.spv_grammar.specs.reading.RoutineReaders.{read_program};
ghost use Rattle.spv_grammar.specs.reading.RuleReaders.{read_rules, read_formula_text};
ghost use Rattle.spv_grammar.specs.reading.Depths.{formula_depth, designator_depth, statement_depth, block_depth, type_depth, program_depth, rule_tree_depth, formula_text_depth};
ghost use Rattle.spv_grammar.specs.reading.Kinds.{formulas, designators, statements, blocks, types};
ghost use Rattle.spv_grammar.specs.reading.Laws.{ReadIsSpelled, SpelledIsRead, EnoughLevels, SpelledIsOne, ReadIsTree, TreeIsRead, EnoughLevelsForTrees, OneTree};

/// A formula is read where it is spelled, and no other one.
pub fn law_formulas()
    ensures read_is_spelled { ReadIsSpelled formulas read_formula }
    ensures spelled_is_read { SpelledIsRead formulas formula_depth read_formula }
    ensures enough_levels { EnoughLevels formulas read_formula }
    ensures spelled_is_one { SpelledIsOne formulas }
{}

/// A designator is read where it is spelled, and no other one.
pub fn law_designators()
    ensures read_is_spelled { ReadIsSpelled designators (λ n. read_designator (read_inner n)) }
    ensures spelled_is_read { SpelledIsRead designators designator_depth (λ n. read_designator (read_inner n)) }
    ensures enough_levels { EnoughLevels designators (λ n. read_designator (read_inner n)) }
    ensures spelled_is_one { SpelledIsOne designators }
{}

/// A statement is read where it is spelled, and no other one: each ELSE goes with the innermost IF that still lacks one.
pub fn law_statements()
    ensures read_is_spelled { ReadIsSpelled statements read_statement }
    ensures spelled_is_read { SpelledIsRead statements statement_depth read_statement }
    ensures enough_levels { EnoughLevels statements read_statement }
    ensures spelled_is_one { SpelledIsOne statements }
{}

/// A block is read where it is spelled, and no other one.
pub fn law_blocks()
    ensures read_is_spelled { ReadIsSpelled blocks read_block }
    ensures spelled_is_read { SpelledIsRead blocks block_depth read_block }
    ensures enough_levels { EnoughLevels blocks read_block }
    ensures spelled_is_one { SpelledIsOne blocks }
{}

/// A type is read where it is spelled, and no other one.
pub fn law_types()
    ensures read_is_spelled { ReadIsSpelled types read_type }
    ensures spelled_is_read { SpelledIsRead types type_depth read_type }
    ensures enough_levels { EnoughLevels types read_type }
    ensures spelled_is_one { SpelledIsOne types }
{}

/// A program is read exactly where a well formed tree reads the tokens, and there is one such tree at most.
pub fn law_programs()
    ensures read_is_tree { ReadIsTree read_program Reads }
    ensures tree_is_read { TreeIsRead read_program program_depth Reads }
    ensures enough_levels { EnoughLevelsForTrees read_program Reads }
    ensures one_tree { OneTree Reads }
{}

/// A rule file is read exactly where a tree reads the tokens, and there is one such tree at most.
pub fn law_rules()
    ensures read_is_tree { ReadIsTree read_rules ReadsRules }
    ensures tree_is_read { TreeIsRead read_rules rule_tree_depth ReadsRules }
    ensures enough_levels { EnoughLevelsForTrees read_rules ReadsRules }
    ensures one_tree { OneTree ReadsRules }
{}

/// A formula text is read exactly where a tree reads the tokens, and there is one such tree at most.
pub fn law_formula_texts()
    ensures read_is_tree { ReadIsTree read_formula_text ReadsFormulaText }
    ensures tree_is_read { TreeIsRead read_formula_text formula_text_depth ReadsFormulaText }
    ensures enough_levels { EnoughLevelsForTrees read_formula_text ReadsFormulaText }
    ensures one_tree { OneTree ReadsFormulaText }
{}
