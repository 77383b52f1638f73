// What is true of conditions and limits, as contracts of functions that do nothing.

ghost use Rattle.spv_logic.specs.Conditions.{Meaning};
ghost use Rattle.spv_conditions.specs.Laws.{TrueConditionsGiveCorrectIn};
ghost use Rattle.spv_conditions.specs.Making.{MeetsNoOther, MeetsOne};
ghost use Rattle.spv_conditions.specs.Sorted.{ConditionsAreSorted};

use spv_assign::limits::law_one_limit;
use spv_term::World;

/// Where the conditions of a program that is well typed and shares rightly are true in a world, the program is correct in it: for every
/// world at once, and for one that is at hand.
pub fn law_conditions<W: World>(world: &W)
    ensures every_world { (m : Meaning) → TrueConditionsGiveCorrectIn m }
    ensures this_world { TrueConditionsGiveCorrectIn (W.apply world.now) }
{
    let _ = world;
}

/// Which limit comes is one.
pub fn law_limits()
    ensures within { MeetsNoOther }
    ensures one { MeetsOne }
{
    law_one_limit();
}

/// Each formula of the conditions of a well typed program is of sort Bool.
pub fn law_sorted_conditions()
    ensures { ConditionsAreSorted }
{}
