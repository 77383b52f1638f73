// What is true of the table of a leaf, each law the contract of a function that does nothing.

ghost use Rattle.std.specs.Prelude.{◌≡◌, false, true, [], ◌∷◌, map, Ok};
ghost use Rattle.spv_table.specs.Values.{holds, listed_in};
ghost use Rattle.spv_models.specs.leaf_models.Examples as example;
ghost use Rattle.spv_models.specs.leaf_models.Laws.{AboveIsMet, AlikeAreSame, ArgumentsAreSubterms, AtomsAddNothing, AtomsAreAtoms, AtomsAreThere, ClassesAreOne, ClassesDiffer, DerivationsJoin, DerivationsKeepSorts, FormulasAreSubterms, FormulasHold, LabelsAreKept, LabelsJoin, LeafHasTable, ListsSubterms, LiteralIsMet, LiteralsAreTold, NumbersAreAtPoint, OthersAreClasses, SubtermsAreOnce, TableFalsifies, TruthsAreComputed, TruthsAreThere, UncomputedStandInAtoms};

/// The subterms of formulas: these, with the arguments of each, none twice.
pub fn law_subterms()
    ensures formulas { FormulasAreSubterms }
    ensures arguments { ArgumentsAreSubterms }
    ensures once { SubtermsAreOnce }
{}

/// The atoms of a search: those of all formulas and of arguments of sort Bool, each of which is an
/// atom over subterms. Each subterm but connectives, TRUE and FALSE stands in one of them.
pub fn law_atoms()
    ensures there { AtomsAreThere }
    ensures are_atoms { AtomsAreAtoms }
    ensures add_nothing { AtomsAddNothing }
    ensures cover { UncomputedStandInAtoms }
{}

/// Terms that derivations join may be taken for the same terms, and no two sorts are joined; so, where
/// the literals were told, they join and separate as a leaf wants it. The trees of equal labels of an
/// arena's terms may be taken so too, where these are equal exactly if there is a derivation.
pub fn law_joined()
    ensures trees { DerivationsJoin }
    ensures literals { LiteralsAreTold }
    ensures sorts { DerivationsKeepSorts }
    ensures labels { LabelsJoin }
    ensures kept { LabelsAreKept }
{}

/// A point that meets all bounds of rows is one at which the literals are true whose bounds stand.
pub fn law_point()
    ensures literals { LiteralIsMet }
    ensures above { AboveIsMet }
{}

/// What a term is worth in the table: a whole number its value at the point, a formula its truth,
/// another term the number of its class, which no other class has.
pub fn law_values()
    ensures numbers { NumbersAreAtPoint }
    ensures truths_there { TruthsAreThere }
    ensures truths { TruthsAreComputed }
    ensures others { OthersAreClasses }
    ensures classes_differ { ClassesDiffer }
    ensures classes_are_one { ClassesAreOne }
{}

/// It lists what a table has to list, and is one: equal arguments give equal values.
pub fn law_table()
    ensures lists { ListsSubterms }
    ensures alike { AlikeAreSame }
    ensures table { LeafHasTable }
{}

/// Each formula has in the table the truth that its atoms give it.
pub fn law_formulas()
    ensures { FormulasHold }
{}

/// Where the hypotheses are true and the goal is false, the table shows it.
pub fn law_survives()
    ensures { TableFalsifies }
{}

/// A small leaf: `x < y`, and `q` or `y < x`, are to give `F(y) < F(x)` or `D(x < y) = D(not q)`. The
/// last two leaves lack one thing each, and are none.
pub fn law_example()
    ensures atoms { example.its_atoms ≡ example.expected_atoms }
    ensures questions { example.its_questions ≡ example.expected_questions }
    ensures is_leaf { example.IsLeafHere example.leaf }
    ensures table { example.its_table ≡ example.expected_table }
    ensures hypothesis { map (holds (listed_in example.its_table)) example.condition.given ≡ Ok true ∷ [] }
    ensures goal { holds (listed_in example.its_table) example.condition.goal ≡ Ok false }
    ensures each_equation_has_a_truth { example.IsLeafHere example.without_equation → ⊥ }
    ensures what_differs_has_an_order { example.IsLeafHere example.without_order → ⊥ }
{}
