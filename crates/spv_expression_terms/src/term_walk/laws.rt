// What is proved of the terms, each the contract of a function that does nothing.

ghost use Rattle.spv_expression_terms.specs.term_walk.Laws.{CallsAreListed, PlaceCallsAreListed, ValuesAreGathered, PlacesAreGathered, NoneIsFalse, ValuesAreTerms, PlacesAreTargets, TermsArePresent, TablesGiveFormulas, TablesGiveExits, TablesGiveExpressions, TablesGivePlaces, FormulasAreMakeable, ExpressionsAreMakeable, PlacesAreMakeable};

/// What makes no call is that of whose calls none is listed.
pub fn law_calls()
    ensures expressions { CallsAreListed }
    ensures places { PlaceCallsAreListed }
{}

/// Expressions and places without calls have the terms and places that are written, in whatever program, routine and supply.
pub fn law_valued()
    ensures values { ValuesAreTerms }
    ensures places { PlacesAreTargets }
    ensures present { TermsArePresent }
{}

/// The calls of an expression or designator are its outermost ones, made one after the other in order; and its term or place
/// is what is written with their values in their places. Without variables for them it is what is written of an expression
/// without calls.
pub fn law_gathered()
    ensures values { ValuesAreGathered }
    ensures places { PlacesAreGathered }
    ensures none { NoneIsFalse }
{}

/// By tables that find what a scope finds, terms are those of the scope: of what annotations see, of what
/// EXIT sees, and of the variables that expressions see.
pub fn law_names()
    ensures formulas { TablesGiveFormulas }
    ensures exits { TablesGiveExits }
    ensures expressions { TablesGiveExpressions }
    ensures places { TablesGivePlaces }
{}

/// Well sorted terms may be made where the numerals fit, as those that were written do.
pub fn law_makeable()
    ensures formulas { FormulasAreMakeable }
    ensures expressions { ExpressionsAreMakeable }
    ensures places { PlacesAreMakeable }
{}
