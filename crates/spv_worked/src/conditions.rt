// The conditions of small programs, each the contract of a function that does nothing.

ghost use Rattle.spv_worked.specs.CallConditions as calls;
ghost use Rattle.spv_worked.specs.PlaceConditions as places;
ghost use Rattle.spv_worked.specs.StatementConditions as statements;

/// The conditions of tests and loops.
pub fn law_tests()
    ensures nested_if { statements.NestedIf }
    ensures case_arms { statements.CaseArms }
    ensures while_with_assert { statements.WhileWithAssert }
    ensures while_renames { statements.WhileRenames }
    ensures repeat_tests { statements.RepeatTests }
    ensures for_counts { statements.ForCounts }
    ensures for_counts_down { statements.ForCountsDown }
{}

/// The conditions of changed elements, changed cells and new ones.
pub fn law_parts()
    ensures elements_are_stored { statements.ElementsAreStored }
    ensures cells_are_one_class { statements.CellsAreOneClass }
    ensures new_cells_differ { statements.NewCellsDiffer }
    ensures cells_without_a_name { statements.CellsWithoutANameAreRenamed }
{}

/// The conditions of calls and of routines.
pub fn law_calls_and_routines()
    ensures swap { calls.Swap }
    ensures fill { calls.Fill }
    ensures step { calls.Step }
    ensures factorial { calls.Factorial }
    ensures twice { calls.Twice }
    ensures call_in_a_test { calls.CallInATest }
    ensures classes_without_names { calls.Numbering }
{}

/// The conditions of calls with VAR arguments at parts and in cells.
pub fn law_places()
    ensures cell { places.FillACell }
    ensures field { places.FillAField }
    ensures element { places.FillAndMove }
    ensures passed_on { places.PassOn }
    ensures new { places.CreateInARow }
    ensures new_in_a_cell { places.CreateInACell }
{}

/// The conditions of calls in arguments and indices, of classes that a call may change, and of a loop over a call.
pub fn law_inner_calls()
    ensures arguments { places.Summing }
    ensures index { places.CallInAnIndex }
    ensures classes { places.Remaking }
    ensures loops { places.Resetting }
{}
