// The bounds that were ever asserted, each law the contract of a function that does nothing.

ghost use Rattle.spv_simplex.specs.Laws.{OpensWithNone, AssertsOne, UndoesNone};

/// All bounds that stand are among those that were asserted since the tableau was opened, and each row outside
/// the basis is at one of its own: as a tableau begins, after a bound, and after bounds were undone.
pub fn law_asserted()
    ensures open { OpensWithNone }
    ensures assert { AssertsOne }
    ensures undo { UndoesNone }
{}
