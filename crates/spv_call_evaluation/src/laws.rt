// What is proved of evaluations with calls, each claim the contract of a function that does nothing.

ghost use Rattle.spv_logic.specs.Conditions.{Meaning};
ghost use Rattle.spv_call_evaluation.specs.Laws.{ExpressionsGiveTheirWorth, PlacesLieWhereTheirTermsSay, ArgumentsAreBoundToTheirTerms, ExpressionsAreRightTestsIn, CorrectFunctionsGive, ExpressionsAreSupplied, PlacesAreSupplied, ArgumentsAreSupplied, LeavesAreSupplied};

/// Expressions, places and arguments with calls in them, wherever these stand: where the functions that are called give what they
/// promise, and the list with the calls in front is true, each annotation that is reached holds; the state is as it was; and the
/// fresh variables of the calls have values with which the list behind the calls is true. With these a value is what its
/// expression's term is worth, a place lies where its designator's term says and holds what that term is worth, and each parameter
/// is bound to what its argument's term says.
pub fn law_evaluation()
    ensures expressions { ExpressionsGiveTheirWorth }
    ensures places { PlacesLieWhereTheirTermsSay }
    ensures arguments { ArgumentsAreBoundToTheirTerms }
{}

/// The calls of expressions, places and arguments take their fresh variables from the supply: the terms, and each list with the calls
/// in front, have nothing to do with what the supply has still to give, where the list behind them has not; and so it is with the lists before assignments, calls and NEW.
pub fn law_supplies()
    ensures expressions { ExpressionsAreSupplied }
    ensures places { PlacesAreSupplied }
    ensures arguments { ArgumentsAreSupplied }
    ensures leaves { LeavesAreSupplied }
{}

/// In a well typed program that shares rightly, where every routine is correct with fewer turns, a function that is called gives what it
/// promises: its ENTRY, which is true of the arguments' terms, holds where it begins; what its run reaches holds; the state behind it
/// is the one before; and its EXIT holds of the arguments' terms and the value that it gave. So every expression is a right test.
pub fn law_functions()
    ensures functions { CorrectFunctionsGive }
    ensures tests { (m : Meaning) → ExpressionsAreRightTestsIn m }
{}
