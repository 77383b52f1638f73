// What is true of substitution and of numbers, as contracts of functions that do nothing.

ghost use Rattle.std.specs.Prelude.{List};
ghost use Rattle.spv_logic.specs.declared.conditions.TermId.{TermId};
ghost use Rattle.spv_term.specs.Arena.{Arena};
ghost use Rattle.spv_term.specs.substitution.Laws.{IsWorthOfImages};

/// A term that is another one with pairs put in is worth what that one is worth where each variable
/// has the value of what is put in its place.
pub fn law_worth()
    ensures { (old new : Arena) (pairs : List (TermId × TermId)) (t u : TermId) → IsWorthOfImages old pairs new t u }
{}
