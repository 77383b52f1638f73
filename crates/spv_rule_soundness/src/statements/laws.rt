// What is proved of the rules of statements, each the contract of a function that does nothing.

ghost use Rattle.spv_rule_soundness.specs.statements.Laws.{ControlRulesAreRight};

/// The rules of sequences, IF, CASE, loops and ASSERT are right in every world, with any number of turns, where those
/// of their leaves and tests are.
pub fn law_before()
    ensures { ControlRulesAreRight }
{}
