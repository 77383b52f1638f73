// Worked checks, each the contract of a function that does nothing.

ghost use Rattle.spv_proof.specs.checker.Examples.{RoomForOne, NoRoom, WideAtX, WideAtY, NegativeFirst, WideRelation};
ghost use Rattle.spv_proof.specs.checker.RuleExamples.{RuleIsCited, NoRuleIsThere, TermsDoNotFit, OtherInstance, NoRoomForInstance};

/// What stops a check, and where.
pub fn law_stops()
    ensures room { RoomForOne }
    ensures no_room { NoRoom }
    ensures wide_at_x { WideAtX }
    ensures wide_at_y { WideAtY }
    ensures negative_first { NegativeFirst }
    ensures wide_relation { WideRelation }
{}

/// What a check under a rule comes to.
pub fn law_cited_rules()
    ensures cited { RuleIsCited }
    ensures no_rule { NoRuleIsThere }
    ensures do_not_fit { TermsDoNotFit }
    ensures other { OtherInstance }
    ensures no_room { NoRoomForInstance }
{}
