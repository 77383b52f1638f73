// Facts about the definitions, each the contract of a function that does nothing.

ghost use Rattle.spv_tree.specs.syntax.Reads.{Reads, ReadsRules, ReadsFormulaText};
ghost use Rattle.spv_parser.specs.language.Texts.{TextsHaveOneTree};

use spv_grammar::reading::laws::{law_formula_texts, law_programs, law_rules};

/// Two trees of one text are equal.
pub fn law_one_tree()
    ensures programs { TextsHaveOneTree Reads }
    ensures rules { TextsHaveOneTree ReadsRules }
    ensures formula_texts { TextsHaveOneTree ReadsFormulaText }
{
    law_programs();
    law_rules();
    law_formula_texts();
}
