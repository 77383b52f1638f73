// The frame law, each claim the contract of a function that does nothing.

ghost use Rattle.spv_writes.specs.Laws.{PutLeavesPlacesApart};
ghost use Rattle.spv_frame_law.specs.Laws.{StatementsWriteWhatTheyChange, JumpsWriteWhatTheyChange, ExpressionsLeaveTheState, PlacesAreFixedInTheirAreas, ArgumentsReferIntoTheirAreas, RoutinesWriteWhatTheyMay, FunctionsChangeTheirFramesAlone, CalledRoutinesWriteWhatTheyMay, WritingKeepsApart, WritingLeavesStarts, StatementsLeaveStarts, CallsBeginInStarts, BodiesCallSo, OtherNamesShowWhatTheyDid, PutChangesOneOfTheView, BodiesChangeWhatShows, StatementsChangeWhatTheyMay};
ghost use Rattle.spv_frame_law.specs.Stacks.{WritingKeepsAll, StatementsKeepAll, CallsPushOne, CallsPopOne};

/// Where a routine of a framed program has run, nothing is changed but its own frame, its VAR places and the items of its VAR groups, and
/// there are new cells only of their types; a function changes nothing but its own frame. A statement writes in the areas of what it
/// changes, also where it ends by a jump, an expression leaves the state as it was, a place is fixed in the areas of its designator's root, and VAR
/// parameters refer into those of their arguments.
pub fn law_frame()
    ensures routines { RoutinesWriteWhatTheyMay }
    ensures functions { FunctionsChangeTheirFramesAlone }
    ensures calls { CalledRoutinesWriteWhatTheyMay }
    ensures statements { StatementsWriteWhatTheyChange }
    ensures jumps { JumpsWriteWhatTheyChange }
    ensures expressions { ExpressionsLeaveTheState }
    ensures places { PlacesAreFixedInTheirAreas }
    ensures arguments { ArgumentsReferIntoTheirAreas }
{}

/// A put leaves what is at a place that does not overlap. What does not overlap does not overlap after writing: writing leaves
/// starts, and so do statements of framed programs, whose calls begin in starts.
pub fn law_apart()
    ensures put { PutLeavesPlacesApart }
    ensures apart { WritingKeepsApart }
    ensures starts { WritingLeavesStarts }
    ensures statements { StatementsLeaveStarts }
    ensures calls { CallsBeginInStarts }
    ensures bodies { BodiesCallSo }
{}

/// In every run of a framed program from a start, each step keeps that the frame of the routine that was started, and each frame that was pushed
/// since, are apart and have VAR places that exist: what is written, be it a part of a place or a new cell; a statement that ended; a
/// call, which pushes one more such frame; and the return from a call.
pub fn law_apart_kept()
    ensures writing { WritingKeepsAll }
    ensures statements { StatementsKeepAll }
    ensures calls { CallsPushOne }
    ensures returns { CallsPopOne }
{}

/// The view of a routine, or of the main block: after writing in the areas of some names every other name shows what it did.
/// So a put at or below a name changes that name alone, and a statement of a framed program what it may.
pub fn law_view()
    ensures others { OtherNamesShowWhatTheyDid }
    ensures put { PutChangesOneOfTheView }
    ensures bodies { BodiesChangeWhatShows }
    ensures statements { StatementsChangeWhatTheyMay }
{}
