// What the parts of a check are, each law the contract of a function that does nothing.

ghost use Rattle.spv_simplex.specs.pivot_runs.Along.{MakesStep, StepIsAt, MoveIsAt};
ghost use Rattle.spv_simplex.specs.pivot_runs.Arrivals.{PlacedStands, PlacingIsWide, GoesUnderway, UnderwayStands, UnderwayBasis, StepIsWide, NoneLeavesMeets, StuckIsContradiction, StepIsUnfinished};

/// What was chosen and made is a step, and leads to the solved form and the point of the placed basis after it; so
/// does a move of a column to its bound.
pub fn law_step()
    ensures step { MakesStep }
    ensures after { StepIsAt }
    ensures moved { MoveIsAt }
{}

/// Columns outside the basis that have moved into their bounds: what is so then, and an operation of it that does
/// not fit.
pub fn law_placed()
    ensures stands { PlacedStands }
    ensures wide { PlacingIsWide }
{}

/// Steps are a walk, once columns have moved into their bounds: what is so wherever it ends, and what each of its ends
/// is; the kept basis is that after the steps. Where no column may leave, the point meets all bounds; a stuck column is a contradiction of bounds.
pub fn law_underway()
    ensures underway { GoesUnderway }
    ensures stands { UnderwayStands }
    ensures basis { UnderwayBasis }
    ensures meets { NoneLeavesMeets }
    ensures contradiction { StuckIsContradiction }
    ensures wide { StepIsWide }
    ensures unfinished { StepIsUnfinished }
{}
