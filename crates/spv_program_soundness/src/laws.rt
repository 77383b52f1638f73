// What is proved of assignments, calls, NEW and programs, each the contract of a function that does nothing: for every world at once,
// and for one that is at hand.

ghost use Rattle.spv_logic.specs.Conditions.{Meaning};
ghost use Rattle.spv_call_evaluation.specs.Laws.{ExpressionsAreRightTestsIn};
ghost use Rattle.spv_program_soundness.specs.Laws.{AssignmentsAreRightIn, NewIsRightIn};
ghost use Rattle.spv_program_soundness.specs.Calls.{CallsAreRightIn, EnteringsAreRightIn};
ghost use Rattle.spv_program_soundness.specs.Programs.{TrueConditionsMakeCorrectIn};

use spv_call_evaluation::laws::law_functions;
use spv_logic::World;

/// In a program that is well typed and shares rightly, where every routine is correct with fewer turns, an assignment is right: to a
/// variable, to parts of arrays and records, in cells that others point to as well, and through VAR parameters, with calls wherever
/// they may stand.
pub fn law_assignment<W: World>(world: &W)
    ensures every_world { (m : Meaning) → AssignmentsAreRightIn m }
    ensures this_world { AssignmentsAreRightIn (W.apply world.now) }
{
    let _ = world;
}

/// In such a program NEW is right, for a variable, a part of one, and a part of a cell: the place points to a cell that was none, with
/// any content, and the class of its type is extended by it.
pub fn law_new<W: World>(world: &W)
    ensures every_world { (m : Meaning) → NewIsRightIn m }
    ensures this_world { NewIsRightIn (W.apply world.now) }
{
    let _ = world;
}

/// In such a program the value of an expression is right, whatever functions it calls: where the list with its calls in front is true, what
/// its run reaches holds; the state is as it was; and with the values that the functions gave, the value is what its term is worth, and the list behind the calls is true.
pub fn law_value<W: World>(world: &W)
    ensures every_world { (m : Meaning) → ExpressionsAreRightTestsIn m }
    ensures this_world { ExpressionsAreRightTestsIn (W.apply world.now) }
{
    let _ = world;
    law_functions();
}

/// In such a program a procedure that is entered is right, where its arguments are bound to what their terms say: ENTRY is met, what its
/// run reaches holds, and where it returns, each place that a VAR parameter refers to, and each item of its VAR groups, has a new value
/// for which EXIT holds, and nothing else shows something new.
pub fn law_entered<W: World>(world: &W)
    ensures every_world { (m : Meaning) → EnteringsAreRightIn m }
    ensures this_world { EnteringsAreRightIn (W.apply world.now) }
{
    let _ = world;
}

/// In such a program a procedure's call is right: its value arguments are evaluated and its VAR arguments fixed first, functions that
/// they call included; then it is entered.
pub fn law_call<W: World>(world: &W)
    ensures every_world { (m : Meaning) → CallsAreRightIn m }
    ensures this_world { CallsAreRightIn (W.apply world.now) }
{
    let _ = world;
}

/// A program that is well typed and shares rightly, each of whose conditions is true in a world, is correct there: from every start that
/// meets ENTRY, each routine and the main block reach only annotations that hold, and where they end EXIT holds, whatever cells their
/// pointers share.
pub fn law_program<W: World>(world: &W)
    ensures every_world { (m : Meaning) → TrueConditionsMakeCorrectIn m }
    ensures this_world { TrueConditionsMakeCorrectIn (W.apply world.now) }
{
    let _ = world;
}
