// What is true of the trees of a search, each law the contract of a function that does nothing.

ghost use Rattle.std.specs.Prelude.{◌≡◌, false};
ghost use Rattle.spv_models.specs.split_trees.Examples as example;
ghost use Rattle.spv_models.specs.split_trees.Kept.{IsKept};
ghost use Rattle.spv_models.specs.split_trees.Laws.{FewSplits, FullHasPoint, FullIsLeaf, FullIsTold, FullSurvives, JoinedIsLinked, KeptIsSmall, KeptSplitsOnce, KnownIsLeast, KnownIsTrue, LinkedIsJoined, LinkedIsSame, ShownIsLive, TrueIsLive};

/// A tree that splits on each atom at most once on a path, and has at most three parts at each split,
/// has fewer splits than 3 to the power of the number of atoms. So has a kept tree.
pub fn law_few_splits()
    ensures trees { FewSplits }
    ensures once { KeptSplitsOnce }
    ensures kept { KeptIsSmall }
{}

/// What is joined on a path: what derivations join from what is told and from what is shared, and no
/// more than any equivalence holds that has what is told and in which the sides of every other
/// equation of whole numbers have an order.
pub fn law_joined()
    ensures derived { LinkedIsJoined }
    ensures found { JoinedIsLinked }
    ensures least { LinkedIsSame }
{}

/// What is known on a path: no more than values have, each fact among them, to which evaluations add
/// nothing; and where the facts are true in a world, all of it is.
pub fn law_known()
    ensures least { KnownIsLeast }
    ensures true_in_a_world { KnownIsTrue }
{}

/// A path is live where such an equivalence has no contradiction; so is each one whose facts are true
/// in some world.
pub fn law_live()
    ensures shown { ShownIsLive }
    ensures live { TrueIsLive }
{}

/// A full path that is live ends in a leaf, and where it is one of a search its table falsifies the
/// condition.
pub fn law_full_path()
    ensures told { FullIsTold }
    ensures point { FullHasPoint }
    ensures leaf { FullIsLeaf }
    ensures survives { FullSurvives }
{}

/// Small searches: one whose tree of a single split is kept, and what trees lack that are not; and two
/// conditions that are shown by what is shared and by arguments of sort Bool, so that no search over
/// them may give up at its start.
pub fn law_examples()
    ensures atoms { example.its_atoms ≡ example.expected_atoms }
    ensures one_split { IsKept example.search 1 example.one_split }
    ensures number_of_splits { IsKept example.search 2 example.one_split → ⊥ }
    ensures twice_on_one_path { IsKept example.search 2 example.split_again → ⊥ }
    ensures clash_by_congruence { IsKept example.search 2 example.split_below_clash → ⊥ }
    ensures parts_of_its_kind { IsKept example.search 1 example.two_parts → ⊥ }
    ensures atom_of_the_search { IsKept example.search 1 example.split_elsewhere → ⊥ }
    ensures steps_that_end { IsKept example.search 1 example.not_closed → ⊥ }
    ensures order_is_known { example.OrderIsKnown }
    ensures evaluation_is_not_enough { example.order_evaluates ≡ false }
    ensures what_bounds_force { example.IsLiveAtStart example.forced → ⊥ }
    ensures arguments_are_asked { example.IsLiveAtStart example.arguments → ⊥ }
{}

/// Five conditions whose start is not live, each by another part of what live means.
pub fn law_contradictions()
    ensures true_and_false { example.IsLiveAtStart example.both_truths → ⊥ }
    ensures opposite_values { example.IsLiveAtStart example.opposite_truths → ⊥ }
    ensures two_numerals { example.IsLiveAtStart example.two_numerals → ⊥ }
    ensures no_point { example.IsLiveAtStart example.without_point → ⊥ }
    ensures no_equal_values { example.IsLiveAtStart example.without_equal_values → ⊥ }
{}
