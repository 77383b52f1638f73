//! Small rule files, and what is read of each for one program, computed from the bytes on.

ghost use Rattle.spv_worked.specs.rule_texts.Files.{Read, Refused, Unbound, Triggers};
ghost use Rattle.spv_worked.specs.rule_texts.Factorials.{FactorialsHold};

/// Rules that are read, as terms.
#[tactic(auto, unfolding(spv_lexer::specs::Front::comment, spv_lexer::specs::Front::letters, spv_lexer::specs::Front::numeral, spv_lexer::specs::Front::longest_sign, spv_lexer::specs::Front::front, spv_lexer::specs::Reading::by_front, spv_lexer::specs::Reading::pieces, spv_lexer::specs::Reading::reading_from, spv_lexer::specs::Tokens::numbered))]
pub fn law_read()
    ensures { Read }
{}

/// Which application is the trigger, whichever way the term is turned.
#[tactic(auto, unfolding(spv_lexer::specs::Front::comment, spv_lexer::specs::Front::letters, spv_lexer::specs::Front::numeral, spv_lexer::specs::Front::longest_sign, spv_lexer::specs::Front::front, spv_lexer::specs::Reading::by_front, spv_lexer::specs::Reading::pieces, spv_lexer::specs::Reading::reading_from, spv_lexer::specs::Tokens::numbered))]
pub fn law_triggers()
    ensures { Triggers }
{}

/// Rule files that break a rule of names and types.
#[tactic(auto, unfolding(spv_lexer::specs::Front::comment, spv_lexer::specs::Front::letters, spv_lexer::specs::Front::numeral, spv_lexer::specs::Front::longest_sign, spv_lexer::specs::Front::front, spv_lexer::specs::Reading::by_front, spv_lexer::specs::Reading::pieces, spv_lexer::specs::Reading::reading_from, spv_lexer::specs::Tokens::numbered))]
pub fn law_refused()
    ensures { Refused }
{}

/// Rules with a variable that is not in their triggers.
#[tactic(auto, unfolding(spv_lexer::specs::Front::comment, spv_lexer::specs::Front::letters, spv_lexer::specs::Front::numeral, spv_lexer::specs::Front::longest_sign, spv_lexer::specs::Front::front, spv_lexer::specs::Reading::by_front, spv_lexer::specs::Reading::pieces, spv_lexer::specs::Reading::reading_from, spv_lexer::specs::Tokens::numbered))]
pub fn law_unbound()
    ensures { Unbound }
{}

/// The rules of factorials hold in a world.
pub fn law_factorial()
    ensures { FactorialsHold }
{}
