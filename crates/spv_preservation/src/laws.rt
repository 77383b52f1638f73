// The theorems on what runs keep, each the contract of a function that does nothing.

ghost use Rattle.spv_preservation.specs.Laws.{StatementsLeaveRightStates, StatementsJumpNowhere, BodiesKeepValues, RightStatesHaveValues, RightStatesAreStarts};

/// A well typed statement that ended leaves a right state where it began in one, and the body of a routine or of the main
/// block leaves values of their types and a right heap where it began at a start: with any number of turns and any choices,
/// calls and NEW included. No such statement ends by a jump.
pub fn law_preservation()
    ensures statements { StatementsLeaveRightStates }
    ensures jumps { StatementsJumpNowhere }
    ensures bodies { BodiesKeepValues }
{}

/// In a right state each name that shows has a value of its type, and the heap is right: a right state in which nothing
/// overlaps is a start.
pub fn law_values()
    ensures values { RightStatesHaveValues }
    ensures starts { RightStatesAreStarts }
{}
