// What a search's invariant gives, each law the contract of a function that does nothing.

ghost use Rattle.spv_branch_theory.specs.search_invariant.Laws.{FewerAreLive, KnownRelationsAreTold, SubtermsOfAtomsAreAdded};

/// On a path to which nothing else came than that formulas of the search are true or false, and orders that were told of equations, each
/// relation of whole numbers that is known, or whose negation is, is an atom or an order that was told.
pub fn law_known_relations()
    ensures told { KnownRelationsAreTold }
{}

/// Where each atom is in the graph, each subterm of the atoms is.
pub fn law_added_parts()
    ensures added { SubtermsOfAtomsAreAdded }
{}

/// What shows a path live shows one live that has no other facts.
pub fn law_fewer_facts()
    ensures live { FewerAreLive }
{}
