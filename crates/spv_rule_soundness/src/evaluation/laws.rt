// What is proved of evaluations, each the contract of a function that does nothing.

ghost use Rattle.spv_rule_soundness.specs.evaluation.Laws.{ExpressionsGiveWhatTheirTermsAreWorth, PlacesHoldWhatTheirTermsAreWorth};

/// In every world and under every valuation that shows a state, an expression without calls stops by a fault, or
/// gives what its term is worth, and a place that it fixes holds what the place's term is worth. Nothing is reached
/// meanwhile, the state stays, and no choice is taken.
pub fn law_value()
    ensures expressions { ExpressionsGiveWhatTheirTermsAreWorth }
    ensures places { PlacesHoldWhatTheirTermsAreWorth }
{}
