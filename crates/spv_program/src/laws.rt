// What is proved of terms, each the contract of a function that does nothing.

ghost use Rattle.spv_program.specs.Laws.{FormulaTermsHaveTheirSort, ExitTermsHaveTheirSort, ExpressionTermsHaveTheirSort, PlaceTermsHaveTheirSort};

/// The terms of well typed formulas, expressions and places are well sorted, with the sorts that typing gives.
pub fn law_terms()
    ensures formulas { FormulaTermsHaveTheirSort }
    ensures exits { ExitTermsHaveTheirSort }
    ensures expressions { ExpressionTermsHaveTheirSort }
    ensures places { PlaceTermsHaveTheirSort }
{}
