// What is true of walks, as contracts of functions that do nothing.

ghost use Rattle.std.specs.Prelude.{Option};
ghost use Rattle.spv_logic.specs.declared.conditions.RoutineId.{RoutineId};
ghost use Rattle.spv_logic.specs.Conditions.{Condition};
ghost use Rattle.spv_program.specs.Formulas.{Annotation};
ghost use Rattle.spv_program.specs.Programs.{Program};
ghost use Rattle.spv_program.specs.Supplies.{Supply};
ghost use Rattle.spv_assign.specs.creation_trace.Examples.{ExamplesAreCounted};
ghost use Rattle.spv_assign.specs.creation_trace.Laws.{WalksJoin, StopsFirst, StopsBehind, HasTheParts, FullMeansMore};

/// Walks one behind the other are the walk of both, and what stops one of them stops that.
pub fn law_walks()
    ensures join { WalksJoin }
    ensures first { StopsFirst }
    ensures behind { StopsBehind }
{}

/// From an arena without terms: what is there behind a walk are the different parts of what it made; and where the
/// arena runs full, those are more than it may have.
pub fn law_limits()
    ensures parts { HasTheParts }
    ensures full { FullMeansMore }
{}

/// How many conditions the lists of small statements have.
pub fn law_examples()
    ensures { (p : Program) (here : Option RoutineId) (n : Supply) (c : Condition) (f : Annotation) → ExamplesAreCounted p here n c f }
{}
