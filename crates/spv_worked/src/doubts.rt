// Programs that are correct, and programs that are not, each claim the contract of a function that does nothing.

ghost use Rattle.spv_worked.specs.Doubts.{WrongIsNotCorrect, CorrectWhereFactIsOne, PromisingIsAsked, PromisingIsNotCorrect, TwoRowsAreNoStart};
ghost use Rattle.spv_worked.specs.CorrectPrograms.{SwappingIsCorrect, Clear, ClearingIsCorrect};

/// There is a program that is correct in no world, one that is correct only where a symbol is as it says, and one that is correct in no
/// world since a routine breaks its own EXIT, which its main block relies on.
pub fn law_doubts()
    ensures wrong { WrongIsNotCorrect }
    ensures about_fact { CorrectWhereFactIsOne }
    ensures promising { PromisingIsNotCorrect }
    ensures asked { PromisingIsAsked }
{}

/// No routine starts where a VAR parameter is a part of a value of no sort.
pub fn law_no_start()
    ensures { TwoRowsAreNoStart }
{}

/// A program that swaps two variables by a routine with VAR parameters is correct in every world, and so is one whose routine calls
/// itself; the conditions of both are shown beside the others.
pub fn law_correct()
    ensures swapping { SwappingIsCorrect }
    ensures clear { Clear }
    ensures clearing { ClearingIsCorrect }
{}
