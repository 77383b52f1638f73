// Facts about the definitions, each the contract of a function that does nothing.

ghost use Rattle.spv_tree.specs.syntax.Reads.{Reads, ReadsRules, ReadsFormulaText};
ghost use Rattle.spv_grammar.specs.reading.RoutineReaders.{read_program};
ghost use Rattle.spv_grammar.specs.reading.RuleReaders.{read_rules, read_formula_text};
ghost use Rattle.spv_grammar.specs.expected_tokens.FormulaTexts.{whole_formula_text};
ghost use Rattle.spv_grammar.specs.expected_tokens.Laws.{StopsWhereWrong, LeavesWhatIsWrong, LevelsTakeTokens, ReadTheSame};

/// Where no program is read, the tokens go wrong at the token at which reading stops, or at their end; where tokens are left behind
/// one, with the first of these.
pub fn law_program_stops()
    ensures stops { StopsWhereWrong read_program Reads }
    ensures surplus { LeavesWhatIsWrong read_program Reads }
    ensures levels { LevelsTakeTokens read_program }
{}

/// The same of rule files.
pub fn law_rule_stops()
    ensures stops { StopsWhereWrong read_rules ReadsRules }
    ensures surplus { LeavesWhatIsWrong read_rules ReadsRules }
    ensures levels { LevelsTakeTokens read_rules }
{}

/// Where no formula text is read, its tokens go wrong at the token at which reading stops, or at their end.
pub fn law_formula_text_stops()
    ensures stops { StopsWhereWrong whole_formula_text ReadsFormulaText }
    ensures same { ReadTheSame whole_formula_text read_formula_text }
    ensures levels { LevelsTakeTokens whole_formula_text }
{}
