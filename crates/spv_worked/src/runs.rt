// What small programs do, each the contract of a function that does nothing.

ghost use Rattle.std.specs.Prelude.{[], ◌∷◌};
ghost use Rattle.spv_logic.specs.Values.{Pointer};
ghost use Rattle.spv_worked.specs.Small.{z};
ghost use Rattle.spv_worked.specs.CallRuns as calls;
ghost use Rattle.spv_worked.specs.CellRuns as cells;
ghost use Rattle.spv_worked.specs.FaultRuns as faults;
ghost use Rattle.spv_worked.specs.LoopRuns as loops;
ghost use Rattle.spv_worked.specs.PlaceRuns as places;

/// What FOR does: when its INVARIANT is met, when its subrange is tested, and what its variable is at the end.
pub fn law_for()
    ensures without_a_turn { loops.ForWithoutATurn }
    ensures with_three_turns { loops.ForWithThreeTurns }
    ensures needs_four { loops.ForNeedsFour }
    ensures leaves_its_range { loops.ForLeavesItsRange }
    ensures without_a_choice { loops.ForWithoutAChoice }
    ensures down_to { loops.DownTo }
    ensures ends_once { loops.ForEvaluatesItsEndsOnce }
    ensures ends_first { loops.ForEvaluatesItsEndsFirst }
{}

/// What REPEAT, WHILE and CASE do.
pub fn law_loops()
    ensures repeat { loops.RepeatRunsItsBody }
    ensures while_meets { loops.WhileMeetsItsInvariant }
    ensures while_meets_before_its_test { loops.WhileMeetsBeforeItsTest }
    ensures while_is_going { loops.WhileIsGoing }
    ensures while_without_a_turn { loops.WhileWithoutATurn }
    ensures case_first { loops.CaseTakesItsLabel 1 10 }
    ensures case_second { loops.CaseTakesItsLabel 2 10 }
    ensures case_third { loops.CaseTakesItsLabel 3 20 }
    ensures case_without_a_label { loops.CaseWithoutALabel }
{}

/// Where runs stop, and which fault comes first.
pub fn law_faults()
    ensures both_sides_of_and { faults.BothSidesOfAnd }
    ensures both_sides_of_or { faults.BothSidesOfOr }
    ensures right_side_of_and { faults.RightSideOfAnd }
    ensures right_side_of_or { faults.RightSideOfOr }
    ensures remainder_by_zero { faults.RemainderByZero }
    ensures outside_its_range { faults.OutsideItsRange }
    ensures at_its_bound { faults.AtItsBound }
    ensures index_too_large { faults.IndexTooLarge }
    ensures index_too_small { faults.IndexTooSmall }
    ensures place_before_value { faults.PlaceBeforeValue }
    ensures value_before_its_range { faults.ValueBeforeItsRange }
    ensures left_operand_first { faults.LeftOperandFirst }
    ensures right_operand_last { faults.RightOperandLast }
    ensures range_before_the_next_argument { faults.RangeBeforeTheNextArgument }
    ensures later_argument { faults.LaterArgument }
    ensures element_is_read { faults.ElementIsRead }
    ensures quotient { faults.Quotient }
    ensures remainder { faults.Remainder }
{}

/// What calls do: places, the order of calls, recursion, and parameters at EXIT.
pub fn law_calls()
    ensures swap_by_place { calls.SwapByPlace }
    ensures place_stays_fixed { calls.PlaceStaysFixed }
    ensures inner_call_first { calls.InnerCallFirst }
    ensures recursion { calls.Recursion }
    ensures recursion_is_going { calls.RecursionIsGoing }
    ensures start_stays { calls.StartStays }
    ensures own_names_are_back { calls.OwnNamesAreBack }
{}

/// What pointers do: a shared cell is one place, and `p^` of NIL (0), of no cell (9) and of another type's cell (2) stops.
pub fn law_cells()
    ensures shared_cell { cells.SharedCell }
    ensures reading_nil { cells.ReadingStops 0 }
    ensures reading_no_cell { cells.ReadingStops 9 }
    ensures reading_another_types_cell { cells.ReadingStops 2 }
    ensures writing_nil { cells.WritingStops 0 }
    ensures writing_no_cell { cells.WritingStops 9 }
    ensures writing_another_types_cell { cells.WritingStops 2 }
{}

/// What NEW does: its cell has to be positive and no cell yet, of any type.
pub fn law_new()
    ensures takes_its_choices { cells.NewTakesItsChoices }
    ensures twice { cells.NewTwice }
    ensures nil { cells.NewStopsWith (Pointer 0 ∷ cells.node_with 30 ∷ []) }
    ensures cell_of_its_type { cells.NewStopsWith (Pointer 1 ∷ cells.node_with 30 ∷ []) }
    ensures cell_of_another_type { cells.NewStopsWith (Pointer 2 ∷ cells.node_with 30 ∷ []) }
    ensures missing { cells.NewStopsWith [] }
    ensures content_missing { cells.NewStopsWith (Pointer 3 ∷ []) }
    ensures no_pointer { cells.NewStopsWith (z 3 ∷ cells.node_with 30 ∷ []) }
    ensures content_of_another_sort { cells.NewStopsWith (Pointer 3 ∷ z 30 ∷ []) }
    ensures place_before_choices { cells.PlaceBeforeChoices }
{}

/// What calls do with VAR arguments at parts and in cells, and where VAR parameters are given on.
pub fn law_place_runs()
    ensures shared_cell { places.FillASharedCell }
    ensures field { places.FillAField }
    ensures passed_on { places.PassOn }
    ensures recursion { places.RecursionByPlace }
    ensures initial_name { places.InitialNameStays }
{}

/// What calls in arguments and indices do.
pub fn law_inner_calls()
    ensures arguments { places.Summing }
    ensures index { places.CallInAnIndex }
    ensures index_tested_last { places.CallLeadsOut }
{}

/// Which places and items are apart, and which are not.
pub fn law_apart()
    ensures apart { places.Apart }
    ensures not_apart { places.NotApart }
{}
