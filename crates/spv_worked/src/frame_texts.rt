//! Small texts and what the walk over frames tells of them, each computed from the bytes on.

ghost use Rattle.spv_worked.specs.frame_texts.Texts.{Annotations, Callees, Functions, Interleaved, Items, Orders, Roots, Statements, Uses};

/// A function has no VAR parameter and no VAR group: each text has the fault that is told of it, or none.
#[tactic(auto, unfolding(spv_lexer::specs::Front::comment, spv_lexer::specs::Front::letters, spv_lexer::specs::Front::numeral, spv_lexer::specs::Front::longest_sign, spv_lexer::specs::Front::front, spv_lexer::specs::Reading::by_front, spv_lexer::specs::Reading::pieces, spv_lexer::specs::Reading::reading_from, spv_lexer::specs::Tokens::numbered))]
pub fn law_functions()
    ensures { Functions }
{}

/// What a routine reads and writes stands in its list: each text has the fault that is told of it, or none.
#[tactic(auto, unfolding(spv_lexer::specs::Front::comment, spv_lexer::specs::Front::letters, spv_lexer::specs::Front::numeral, spv_lexer::specs::Front::longest_sign, spv_lexer::specs::Front::front, spv_lexer::specs::Reading::by_front, spv_lexer::specs::Reading::pieces, spv_lexer::specs::Reading::reading_from, spv_lexer::specs::Tokens::numbered))]
pub fn law_uses()
    ensures { Uses }
{}

/// What an annotation names stands in the list: each text has the fault that is told of it, or none.
#[tactic(auto, unfolding(spv_lexer::specs::Front::comment, spv_lexer::specs::Front::letters, spv_lexer::specs::Front::numeral, spv_lexer::specs::Front::longest_sign, spv_lexer::specs::Front::front, spv_lexer::specs::Reading::by_front, spv_lexer::specs::Reading::pieces, spv_lexer::specs::Reading::reading_from, spv_lexer::specs::Tokens::numbered))]
pub fn law_annotations()
    ensures { Annotations }
{}

/// What tests and a FOR read and write stands in the list: each text has the fault that is told of it, or none.
#[tactic(auto, unfolding(spv_lexer::specs::Front::comment, spv_lexer::specs::Front::letters, spv_lexer::specs::Front::numeral, spv_lexer::specs::Front::longest_sign, spv_lexer::specs::Front::front, spv_lexer::specs::Reading::by_front, spv_lexer::specs::Reading::pieces, spv_lexer::specs::Reading::reading_from, spv_lexer::specs::Tokens::numbered))]
pub fn law_statements()
    ensures { Statements }
{}

/// Pointers and the class of their cells: each text has the fault that is told of it, or none.
#[tactic(auto, unfolding(spv_lexer::specs::Front::comment, spv_lexer::specs::Front::letters, spv_lexer::specs::Front::numeral, spv_lexer::specs::Front::longest_sign, spv_lexer::specs::Front::front, spv_lexer::specs::Reading::by_front, spv_lexer::specs::Reading::pieces, spv_lexer::specs::Reading::reading_from, spv_lexer::specs::Tokens::numbered))]
pub fn law_items()
    ensures { Items }
{}

/// What a callee's list has stands in the caller's: each text has the fault that is told of it, or none.
#[tactic(auto, unfolding(spv_lexer::specs::Front::comment, spv_lexer::specs::Front::letters, spv_lexer::specs::Front::numeral, spv_lexer::specs::Front::longest_sign, spv_lexer::specs::Front::front, spv_lexer::specs::Reading::by_front, spv_lexer::specs::Reading::pieces, spv_lexer::specs::Reading::reading_from, spv_lexer::specs::Tokens::numbered))]
pub fn law_callees()
    ensures { Callees }
{}

/// Roots that meet at a call: each text has the fault that is told of it, or none.
#[tactic(auto, unfolding(spv_lexer::specs::Front::comment, spv_lexer::specs::Front::letters, spv_lexer::specs::Front::numeral, spv_lexer::specs::Front::longest_sign, spv_lexer::specs::Front::front, spv_lexer::specs::Reading::by_front, spv_lexer::specs::Reading::pieces, spv_lexer::specs::Reading::reading_from, spv_lexer::specs::Tokens::numbered))]
pub fn law_roots()
    ensures { Roots }
{}

/// Which of two faults comes first, and on which line: each text has the fault that is told of it.
#[tactic(auto, unfolding(spv_lexer::specs::Front::comment, spv_lexer::specs::Front::letters, spv_lexer::specs::Front::numeral, spv_lexer::specs::Front::longest_sign, spv_lexer::specs::Front::front, spv_lexer::specs::Reading::by_front, spv_lexer::specs::Reading::pieces, spv_lexer::specs::Reading::reading_from, spv_lexer::specs::Tokens::numbered))]
pub fn law_orders()
    ensures { Orders }
{}

/// Uses and calls that stand one among the other: each text has the fault that is told of it.
#[tactic(auto, unfolding(spv_lexer::specs::Front::comment, spv_lexer::specs::Front::letters, spv_lexer::specs::Front::numeral, spv_lexer::specs::Front::longest_sign, spv_lexer::specs::Front::front, spv_lexer::specs::Reading::by_front, spv_lexer::specs::Reading::pieces, spv_lexer::specs::Reading::reading_from, spv_lexer::specs::Tokens::numbered))]
pub fn law_interleaved()
    ensures { Interleaved }
{}
