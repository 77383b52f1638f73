// The theorem on these programs, the contract of a function that does nothing.

ghost use Rattle.spv_logic.specs.Conditions.{Meaning};
ghost use Rattle.spv_rule_soundness.specs.control.Laws.{TrueConditionsGiveCorrectIn};

use spv_logic::World;

/// Where the conditions of such a program are true in a world, the program is correct in it: for every world at once,
/// and for one that is at hand.
pub fn law_control<W: World>(world: &W)
    ensures every_world { (m : Meaning) → TrueConditionsGiveCorrectIn m }
    ensures this_world { TrueConditionsGiveCorrectIn (W.apply world.now) }
{
    let _ = world;
}
