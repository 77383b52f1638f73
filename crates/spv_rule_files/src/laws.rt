// What is proved of the rules that are read, as the contract of a function that does nothing.

ghost use Rattle.spv_rule_files.specs.Right.{FormulaRulesAreRight, RulesAreRight};

/// Each rule that is read for a program says what is true or false of the variables of its trigger, which is the application of a declared
/// symbol.
pub fn law_rules()
    ensures programs { RulesAreRight }
    ensures formula_texts { FormulaRulesAreRight }
{}
