// What is proved of the terms of well typed programs, each the contract of a function that does nothing.

ghost use Rattle.spv_expression_terms.specs.makeable_terms.Laws.{BodiesSeeSorts, EntriesSeeSorts, ExitsSeeSorts, FormulasAreSorted, ExitsAreSorted, ExpressionsAreSorted, PlacesAreSorted, ValuesAreSorted};

/// In a right program the types are there that the sorts of the names in bodies, in ENTRY and in EXIT name.
pub fn law_scopes()
    ensures bodies { BodiesSeeSorts }
    ensures entries { EntriesSeeSorts }
    ensures exits { ExitsSeeSorts }
{}

/// The terms of well typed formulas, and of well typed expressions and places without calls, are well
/// sorted, and the types that they name are there; so are those of expressions with calls whose values have types that are there.
pub fn law_sorted()
    ensures formulas { FormulasAreSorted }
    ensures exits { ExitsAreSorted }
    ensures expressions { ExpressionsAreSorted }
    ensures places { PlacesAreSorted }
    ensures values { ValuesAreSorted }
{}
