// What is true of the values that facts give, each law the contract of a function that does nothing.

ghost use Rattle.spv_assignments.specs.partial_assignment.Laws.{AllAreCited, ClashesFollow, CoresAreQuiet, FactsAreTrue, ListedContradict, LoudContradict, NoneMeansNone, StillIsFinished, ValuesAgree};

/// Each fact has the value true. A clash among the terms of an arena is one of a step that evaluates: where something is supposed, what was
/// supposed to be false follows; where nothing is, the facts contradict each other. Where no term of the arena clashes, none at all does. And
/// where nothing follows for the questions, evaluations add nothing more. A step that cites the numbers of all facts cites these facts.
pub fn law_known()
    ensures facts { FactsAreTrue }
    ensures quiet { CoresAreQuiet }
    ensures follow { ClashesFollow }
    ensures none { NoneMeansNone }
    ensures agree { ValuesAgree }
    ensures loud { LoudContradict }
    ensures listed { ListedContradict }
    ensures finished { StillIsFinished }
    ensures cited { AllAreCited }
{}
