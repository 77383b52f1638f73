// What the evidence of a check says, as the contract of a function that does nothing.

ghost use Rattle.spv_branch_theory.specs.evidence.Laws.{PivotsAreReached, WideIsReached};

/// Where the relations of both sides are those of the atoms of a search, and a check of the tableau was stopped, its evidence is that
/// of a limit that was reached: an operation that does not fit, or all steps that are allowed.
pub fn law_evidence()
    ensures wide { WideIsReached }
    ensures pivots { PivotsAreReached }
{}
