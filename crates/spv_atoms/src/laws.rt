// What forms say of terms, as contracts of functions that do nothing.

ghost use Rattle.spv_atoms.specs.Laws.{PartsAreRenamed, PartsAreRenumbered, ShapesTellSteps, StepsHaveShapes, TermIsWorthItsForm, TruthIsRight};

/// A whole-number term is worth what its linear form is worth.
pub fn law_form()
    ensures { TermIsWorthItsForm }
{}

/// A truth value that is computed from right ones is right, in every world.
pub fn law_truth()
    ensures { TruthIsRight }
{}

/// A step and its shape tell each other; where facts have other numbers, or terms other ids, the parts that say so are the only ones changed.
pub fn law_steps()
    ensures there { StepsHaveShapes }
    ensures back { ShapesTellSteps }
    ensures renumbered { PartsAreRenumbered }
    ensures renamed { PartsAreRenamed }
{}
