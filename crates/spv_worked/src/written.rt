// What small programs write, each the contract of a function that does nothing.

ghost use Rattle.spv_frame_law.specs.Laws.{IsFramed};
ghost use Rattle.spv_worked.specs.CallRuns as calls;
ghost use Rattle.spv_worked.specs.ViewRuns as views;
ghost use Rattle.spv_worked.specs.WrittenRuns as written;

/// A callee writes its VAR place inside the caller's array, and what its GLOBAL list lets it change: nothing else.
pub fn law_written_places()
    ensures ends { written.FillingEnds }
    ensures may_change { written.FillingMayChange }
    ensures may_not_touch { written.FillingMayNotTouch }
    ensures writes { written.FillingWrites }
    ensures below { written.FillingIsBelowA }
    ensures one_part { written.FillingChangesOnePart }
{}

/// NEW in a callee: a new cell of the class of its VAR group, and the VAR place that leads to it.
pub fn law_written_cells()
    ensures ends { written.MakingEnds }
    ensures may_change { written.MakingMayChange }
    ensures writes { written.MakingWrites }
    ensures extends { written.MakingExtends }
{}

/// A recursion that passes its VAR parameter on writes one place, and functions write nothing.
pub fn law_written_recursion()
    ensures ends { written.AddingEnds }
    ensures may_change { written.AddingMayChange }
    ensures writes { written.AddingWrites }
    ensures functions { written.FunctionsLeaveTheState }
{}

/// A put at a name of a routine's view changes that name alone where the routine's names and items are apart, also where two VAR places
/// are elements of one array; where they are one element both names change. In a cell it changes the cell's class alone.
pub fn law_written_views()
    ensures sees { views.FillSees }
    ensures one_name { views.PutsChangeOneName }
    ensures elements { views.ElementsAreApart }
    ensures one_element { views.OneElementIsNot }
    ensures cells { views.CellsChangeOneClass }
{}

/// The frame law is about these programs.
pub fn law_written_framed()
    ensures filling { IsFramed written.filling_once }
    ensures making { IsFramed written.making }
    ensures adding { IsFramed written.adding }
    ensures functions { IsFramed calls.twice }
{}
