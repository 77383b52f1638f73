// A small system worked through, each of its values the contract of a function that does nothing.

ghost use Rattle.std.specs.Prelude.{◌≡◌, true, false, [], ◌∷◌};
ghost use Rattle.spv_tableau_rules.specs.declared.tableaux.side.Side.TheVariants.{Lower, Upper};
ghost use Rattle.spv_tableau_rules.specs.tableaux.Solved.{Basic, At};
ghost use Rattle.spv_tableau_rules.specs.tableaux.Steps.{IsStep};
ghost use Rattle.spv_tableau_rules.specs.tableaux.Examples as examples;

/// Solved forms and points: as the system begins, after one exchange and after two.
pub fn law_example_solved()
    ensures first { examples.first_entries ≡ examples.first_entries_are }
    ensures second { examples.second_entries ≡ examples.second_entries_are }
    ensures third { examples.third_entries ≡ examples.third_entries_are }
    ensures second_point { examples.values 4 examples.second_point ≡ examples.second_point_is }
    ensures third_point { examples.values 4 examples.third_point ≡ examples.third_point_is }
{}

/// The two steps, what may enter for each, and that the point then meets all bounds.
pub fn law_example_steps()
    ensures first { IsStep examples.rows examples.bounded examples.start examples.first_point examples.first 2 Lower 0 }
    ensures second { IsStep examples.rows examples.bounded examples.places_after_one examples.second_point examples.second 3 Upper 1 }
    ensures enters_first { examples.may_enter_first ≡ true ∷ true ∷ false ∷ false ∷ [] }
    ensures enters_second { examples.may_enter_second ≡ false ∷ true ∷ false ∷ false ∷ [] }
    ensures least { examples.greatest_enters ≡ false }
    ensures absent { examples.absent_part_enters ≡ false }
    ensures out { examples.are_out examples.first_point ≡ false ∷ false ∷ true ∷ true ∷ [] }
    ensures met { examples.are_out examples.third_point ≡ false ∷ false ∷ false ∷ false ∷ [] }
{}

/// Columns outside the basis move into their bounds before the first step.
pub fn law_example_inside()
    ensures moved { examples.moved ≡ Basic ∷ At Lower ∷ At Upper ∷ [] }
    ensures as_held { examples.as_held ≡ examples.as_held_is }
    ensures at_bounds { examples.at_bounds ≡ examples.third_point_is }
{}

/// A contradiction of three bounds, and what may be multiplied.
pub fn law_example_contradiction()
    ensures sums { examples.sums ≡ examples.sums_are }
    ensures may_multiply { examples.may_multiply ≡ true ∷ false ∷ false ∷ false ∷ [] }
{}

/// The rows of two forms: the parts in the order in which they come first.
pub fn law_example_forms()
    ensures parts { examples.rows_of_forms.parts ≡ 3 }
    ensures count { examples.rows_of_forms.count ≡ 2 }
    ensures coefficients { examples.coefficients ≡ examples.coefficients_are }
{}
