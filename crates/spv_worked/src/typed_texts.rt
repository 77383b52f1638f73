//! Small texts and what the walk over types tells of them, each computed from the bytes on.

ghost use Rattle.spv_worked.specs.typed_texts.Texts.{EachFault, Names, Types, Expressions, Calls, Routines, Annotations, Counting};

/// One text for each fault: each text has the fault that is told of it, or none.
#[tactic(auto, unfolding(spv_lexer::specs::Front::comment, spv_lexer::specs::Front::letters, spv_lexer::specs::Front::numeral, spv_lexer::specs::Front::longest_sign, spv_lexer::specs::Front::front, spv_lexer::specs::Reading::by_front, spv_lexer::specs::Reading::pieces, spv_lexer::specs::Reading::reading_from, spv_lexer::specs::Tokens::numbered))]
pub fn law_each_fault()
    ensures { EachFault }
{}

/// Which names may be declared, and what they hide: each text has the fault that is told of it, or none.
#[tactic(auto, unfolding(spv_lexer::specs::Front::comment, spv_lexer::specs::Front::letters, spv_lexer::specs::Front::numeral, spv_lexer::specs::Front::longest_sign, spv_lexer::specs::Front::front, spv_lexer::specs::Reading::by_front, spv_lexer::specs::Reading::pieces, spv_lexer::specs::Reading::reading_from, spv_lexer::specs::Tokens::numbered))]
pub fn law_names()
    ensures { Names }
{}

/// Which types there are, and which are one: each text has the fault that is told of it, or none.
#[tactic(auto, unfolding(spv_lexer::specs::Front::comment, spv_lexer::specs::Front::letters, spv_lexer::specs::Front::numeral, spv_lexer::specs::Front::longest_sign, spv_lexer::specs::Front::front, spv_lexer::specs::Reading::by_front, spv_lexer::specs::Reading::pieces, spv_lexer::specs::Reading::reading_from, spv_lexer::specs::Tokens::numbered))]
pub fn law_types()
    ensures { Types }
{}

/// What operators and statements take: each text has the fault that is told of it, or none.
#[tactic(auto, unfolding(spv_lexer::specs::Front::comment, spv_lexer::specs::Front::letters, spv_lexer::specs::Front::numeral, spv_lexer::specs::Front::longest_sign, spv_lexer::specs::Front::front, spv_lexer::specs::Reading::by_front, spv_lexer::specs::Reading::pieces, spv_lexer::specs::Reading::reading_from, spv_lexer::specs::Tokens::numbered))]
pub fn law_expressions()
    ensures { Expressions }
{}

/// Calls of procedures and functions: each text has the fault that is told of it, or none.
#[tactic(auto, unfolding(spv_lexer::specs::Front::comment, spv_lexer::specs::Front::letters, spv_lexer::specs::Front::numeral, spv_lexer::specs::Front::longest_sign, spv_lexer::specs::Front::front, spv_lexer::specs::Reading::by_front, spv_lexer::specs::Reading::pieces, spv_lexer::specs::Reading::reading_from, spv_lexer::specs::Tokens::numbered))]
pub fn law_calls()
    ensures { Calls }
{}

/// Headings, FORWARD, GLOBAL and INITIAL: each text has the fault that is told of it, or none.
#[tactic(auto, unfolding(spv_lexer::specs::Front::comment, spv_lexer::specs::Front::letters, spv_lexer::specs::Front::numeral, spv_lexer::specs::Front::longest_sign, spv_lexer::specs::Front::front, spv_lexer::specs::Reading::by_front, spv_lexer::specs::Reading::pieces, spv_lexer::specs::Reading::reading_from, spv_lexer::specs::Tokens::numbered))]
pub fn law_routines()
    ensures { Routines }
{}

/// What annotations see and take: each text has the fault that is told of it, or none.
#[tactic(auto, unfolding(spv_lexer::specs::Front::comment, spv_lexer::specs::Front::letters, spv_lexer::specs::Front::numeral, spv_lexer::specs::Front::longest_sign, spv_lexer::specs::Front::front, spv_lexer::specs::Reading::by_front, spv_lexer::specs::Reading::pieces, spv_lexer::specs::Reading::reading_from, spv_lexer::specs::Tokens::numbered))]
pub fn law_annotations()
    ensures { Annotations }
{}

/// What a FOR counts with, and what its body leaves alone: each text has the fault that is told of it, or none.
#[tactic(auto, unfolding(spv_lexer::specs::Front::comment, spv_lexer::specs::Front::letters, spv_lexer::specs::Front::numeral, spv_lexer::specs::Front::longest_sign, spv_lexer::specs::Front::front, spv_lexer::specs::Reading::by_front, spv_lexer::specs::Reading::pieces, spv_lexer::specs::Reading::reading_from, spv_lexer::specs::Tokens::numbered))]
pub fn law_counting()
    ensures { Counting }
{}
