// What writing in areas keeps, each claim the contract of a function that does nothing.

ghost use Rattle.spv_writes.specs.Laws.{WritingChains, WithoutAreasNothingIsWritten, UntouchedPlacesStay, PlacesStayThere, OnePartIsWritten, CellsKeepTypes, UntouchedClassesStay, OneCellIsWritten, PutInACellIsSetCell, NewCellIsExtend, NewCellLeavesOtherClasses, ReferencesStay, RightStatesStayRight, PoppedWritingIsBelow, PoppedStateIsAsItWas};

/// Writing chains. A place that no area overlaps holds what it held, and each place stays there; where the areas that
/// overlap a place lie at or below a part of it, the whole is the old one with that part.
pub fn law_writing()
    ensures chains { WritingChains }
    ensures nothing { WithoutAreasNothingIsWritten }
    ensures untouched { UntouchedPlacesStay }
    ensures existing { PlacesStayThere }
    ensures parts { OnePartIsWritten }
{}

/// Cells keep their types, and a class whose cells no area overlaps stays. Writing in one cell is SETCELL of its class, and
/// a new cell EXTEND.
pub fn law_written_classes()
    ensures types { CellsKeepTypes }
    ensures untouched { UntouchedClassesStay }
    ensures one_cell { OneCellIsWritten }
    ensures put { PutInACellIsSetCell }
    ensures new { NewCellIsExtend }
    ensures others { NewCellLeavesOtherClasses }
{}

/// Routines and references of frames stay, and right states stay right. Below a frame that is popped it is writing in the
/// other areas, and where there is none, the state is as it was.
pub fn law_written_frames()
    ensures references { ReferencesStay }
    ensures right { RightStatesStayRight }
    ensures popped { PoppedWritingIsBelow }
    ensures popped_same { PoppedStateIsAsItWas }
{}
