// Facts about the definitions, each the contract of a function that does nothing.

ghost use Rattle.std.specs.Prelude.{true, false, pos};
ghost use Rattle.spv_logic.specs.declared.operators.Head.TheVariants.{Lt, Le, And, Or, Implies, SetCell, Extend, Atom, Car, Cdr};
ghost use Rattle.spv_logic.specs.Values.{Truth};
ghost use Rattle.spv_logic.specs.Laws.{Compares, Connects, DifferenceTakesTheSecondAway, StoredElement, OtherElements, ChangedContent, OtherContents, ExtendAddsItsPointer, GivesOfPair, AtomIsOne, GoalAlone, TrueHypothesis, FalseHypothesis, QuotientTruncates, RemainderHasTheDividendsSign, QuotientByZero, RemainderByZero, DefaultHasNoRow, SetCellLeavesMembers, ExtendAtNilAddsNone, PartsOfAnAtom, OtherSortCountsAsDefault, ValueTestDecides, TermTestDecides, DefaultsFit, SomeValuation, TermsHaveTheirSort};

/// What the operators give where the text of a program leaves it open.
pub fn law_operators()
    ensures quotient_truncates { QuotientTruncates }
    ensures remainder_has_the_dividends_sign { RemainderHasTheDividendsSign }
    ensures quotient_by_zero { QuotientByZero }
    ensures remainder_by_zero { RemainderByZero }
    ensures default_has_no_row { DefaultHasNoRow }
    ensures set_cell_leaves_members { SetCellLeavesMembers }
    ensures extend_at_nil_adds_none { ExtendAtNilAddsNone }
    ensures first_part_of_an_atom { PartsOfAnAtom Car }
    ensures second_part_of_an_atom { PartsOfAnAtom Cdr }
    ensures other_sort_counts_as_default { OtherSortCountsAsDefault }
{}

/// What a difference, comparisons of numbers and connectives of truth values answer.
pub fn law_comparisons()
    ensures difference { DifferenceTakesTheSecondAway }
    ensures less_goes_up { Compares Lt (pos 2) (pos 3) true }
    ensures less_is_strict { Compares Lt (pos 3) (pos 3) false }
    ensures at_most_goes_up { Compares Le (pos 3) (pos 2) false }
    ensures at_most_has_equality { Compares Le (pos 3) (pos 3) true }
    ensures true_and { Connects And true (λ b. b) }
    ensures false_and { Connects And false (λ b. false) }
    ensures true_or { Connects Or true (λ b. true) }
    ensures false_or { Connects Or false (λ b. b) }
    ensures true_implies { Connects Implies true (λ b. b) }
    ensures false_implies { Connects Implies false (λ b. true) }
{}

/// An array, a class and a pair give back what was put in, and keep the rest.
pub fn law_structures()
    ensures stored_element { StoredElement }
    ensures other_elements { OtherElements }
    ensures content_after_set_cell { ChangedContent SetCell }
    ensures other_contents_after_set_cell { OtherContents SetCell }
    ensures content_after_extend { ChangedContent Extend }
    ensures other_contents_after_extend { OtherContents Extend }
    ensures extend_adds_its_pointer { ExtendAddsItsPointer }
    ensures first_part_of_a_pair { GivesOfPair Car (λ a b. a) }
    ensures second_part_of_a_pair { GivesOfPair Cdr (λ a b. b) }
    ensures pair_is_no_atom { GivesOfPair Atom (λ a b. Truth false) }
    ensures atom_is_one { AtomIsOne }
{}

/// When a sequent is true: its hypotheses are needed, and the goal where all of them hold.
pub fn law_sequents()
    ensures goal_alone { GoalAlone }
    ensures true_hypothesis { TrueHypothesis }
    ensures false_hypothesis { FalseHypothesis }
{}

/// The tests of sameness of the definitions decide equality.
pub fn law_same()
    ensures values { ValueTestDecides }
    ensures terms { TermTestDecides }
{}

/// Each sort has values, and every list of shapes of a program has a valuation.
pub fn law_defaults()
    ensures fit { DefaultsFit }
    ensures valuation { SomeValuation }
{}

/// What a well sorted term is worth has the term's sort.
pub fn law_sorts()
    ensures { TermsHaveTheirSort }
{}
