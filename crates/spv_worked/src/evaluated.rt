// What expressions with calls give, beside what their terms are worth, each the contract of a function that does nothing.

ghost use Rattle.spv_worked.specs.EvaluationRuns as evaluated;
ghost use Rattle.spv_worked.specs.TypedPrograms as typed;

/// What an expression gives is what its term is worth, where the fresh variables of its calls have the values that the functions gave, and
/// what each call promises holds then: a recursive function in an index, with a field, a pointer and a field behind it; calls in arguments,
/// and one function twice; a call in an index; a function that reads a cell.
pub fn law_evaluated()
    ensures link { evaluated.ReadsThroughALink }
    ensures elsewhere { evaluated.OtherwiseItReadsElsewhere }
    ensures arguments { evaluated.CallsInArguments }
    ensures twice { evaluated.OneFunctionTwice }
    ensures index { evaluated.CallInAnIndex }
    ensures cell { evaluated.FunctionReadsACell }
    ensures typed { typed.AreRight evaluated.programs }
{}
