// The theorems on runs, each the contract of a function that does nothing.

ghost use Rattle.spv_logic.specs.Conditions.{Meaning};
ghost use Rattle.spv_meaning.specs.Laws.{MoreTurnsKeepRuns, PutLeavesOtherRoots, PutChangesOneName, PutChangesOneClass, MainBlocksHaveStarts, RoutinesHaveStarts, TrueConditionsGiveCorrectIn};

use spv_logic::World;

/// A run that ended or stopped with some turns does so alike with more.
pub fn law_turns()
    ensures { MoreTurnsKeepRuns }
{}

/// A put leaves what is at places with other roots.
pub fn law_put()
    ensures { PutLeavesOtherRoots }
{}

/// What the main block sees after a put: one name is changed, or one class.
pub fn law_view()
    ensures variables { PutChangesOneName }
    ensures cells { PutChangesOneClass }
{}

/// What is claimed of every start of a main block, or of a routine, is not claimed of none.
pub fn law_starts()
    ensures main_blocks { MainBlocksHaveStarts }
    ensures routines { RoutinesHaveStarts }
{}

/// Where the conditions of a well typed program are true in a world, the program is correct in it: for
/// every world at once, and for one that is at hand. So far for programs that only assign variables and
/// constants to variables.
pub fn law_conditions<W: World>(world: &W)
    ensures every_world { (m : Meaning) → TrueConditionsGiveCorrectIn m }
    ensures this_world { TrueConditionsGiveCorrectIn (W.apply world.now) }
{
    let _ = world;
}
