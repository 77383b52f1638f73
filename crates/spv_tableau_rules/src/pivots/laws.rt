// What solved forms obey, each law the contract of a function that does nothing.

ghost use Rattle.spv_tableau_rules.specs.pivots.Laws.{RowsAreSolved, PivotSolves, StepSolves, BasisAlone, EntriesAlone, HeldPoint, StepMoves, InsideMoves, OneSolvedForm, PointSolves, OnlyPoint, MovedSolves, StuckContradicts, ContradictionRefutes};

/// The rows that a tableau begins with are a solved form.
pub fn law_start()
    ensures rows { RowsAreSolved }
{}

/// A pivot keeps the solutions of the rows, and leads to a basis; so does a step.
pub fn law_pivot()
    ensures solved { PivotSolves }
    ensures step { StepSolves }
    ensures basis { BasisAlone }
    ensures entries { EntriesAlone }
{}

/// There is at most one solved form for a basis.
pub fn law_unique()
    ensures one_form { OneSolvedForm }
{}

/// The point of a placed basis is the solution of the rows in which the columns outside the basis rest.
pub fn law_point()
    ensures solves { PointSolves }
    ensures only { OnlyPoint }
    ensures moved { MovedSolves }
    ensures held { HeldPoint }
{}

/// How the point goes on in a step, and where a column outside the basis is put at its bound.
pub fn law_step()
    ensures step { StepMoves }
    ensures inside { InsideMoves }
{}

/// A stuck column is a contradiction of the bounds, and such a contradiction means that no solution meets them.
pub fn law_contradiction()
    ensures stuck { StuckContradicts }
    ensures refutes { ContradictionRefutes }
{}
