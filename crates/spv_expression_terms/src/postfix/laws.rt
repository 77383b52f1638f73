// What is true of pieces, as contracts of functions that do nothing.

ghost use Rattle.spv_expression_terms.specs.postfix.Laws.{HasOneTerm, HasPiecesOfNone, HasPiecesOfOne, HasPiecesOfTwo, HasPiecesOfThree};

/// Pieces are those of one term at most.
pub fn law_unique()
    ensures { HasOneTerm }
{}

/// The pieces of a term are those of its arguments, one after the other, and then its head.
pub fn law_parts()
    ensures none { HasPiecesOfNone }
    ensures one { HasPiecesOfOne }
    ensures two { HasPiecesOfTwo }
    ensures three { HasPiecesOfThree }
{}
