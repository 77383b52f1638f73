// What is proved of matching, as contracts of functions that do nothing.

ghost use Rattle.spv_rules.specs.matching.Examples as examples;
ghost use Rattle.spv_rules.specs.matching.Laws.{FoundInstancesSay, FoundTermsAreArguments, FoundInstancesAreOnce, StopsWhereTooWide};

/// What rules find in some small tables, and where a value that is too wide stops them.
pub fn law_examples()
    ensures each { examples.EachApplicationIsFound }
    ensures by_variables { examples.TermsGoByVariables }
    ensures inner_meets_two { examples.InnerMeetsTwo }
    ensures inner_is_used { examples.InnerHasToBeUsed }
    ensures symbol_is_not_used { examples.SymbolHasToBeUsed }
    ensures symbol_is_used { examples.SymbolIsUsed }
    ensures inners_in_order { examples.InnersGoInOrder }
    ensures met_twice { examples.VariableMetTwice }
    ensures numeral { examples.NumeralMeetsItsValue }
    ensures other_sort { examples.OtherSortIsNotMet }
    ensures sort { examples.SortIsMet }
    ensures once { examples.FoundOnce }
    ensures of_each_rule { examples.OfEachRule }
    ensures rules_before_terms { examples.RulesBeforeTerms }
    ensures no_test { examples.NoTestNoStop }
    ensures first_term { examples.StopsAtFirstTerm }
    ensures failed_test { examples.FailedTestEnds }
    ensures left_to_right { examples.ArgumentsGoLeftToRight }
    ensures side_by_side { examples.MatchesGoSideBySide }
    ensures rules_first { examples.RulesStopBeforeTerms }
{}

/// What is found: each instance says something, its terms are arguments of used ones, and none stands at two places.
pub fn law_found()
    ensures say { FoundInstancesSay }
    ensures arguments { FoundTermsAreArguments }
    ensures once { FoundInstancesAreOnce }
{}

/// What stops a match is a used term or an argument of one, whose value is too wide.
pub fn law_stops()
    ensures { StopsWhereTooWide }
{}
