//! What is true of every arena, as contracts of functions that do nothing.
ghost use Rattle.std.specs.Prelude.{◌≡◌};
ghost use Rattle.spv_logic.specs.Conditions.{Meaning, answers};
ghost use Rattle.spv_term.specs.Arena.{Arena, IsArena, Extends};
ghost use Rattle.spv_term.specs.Laws.{IsWorthOfHeads, HasOneId, IsWellSorted, NamesTypes, KeepsOld};

use spv_logic::World;

/// Whatever the symbols mean, a term is worth what its head makes of what its arguments are worth.
pub fn law_worth()
    ensures { (a : Arena) → IsArena a → (symbols : Meaning) → IsWorthOfHeads a symbols }
{}

/// In every world a term is worth what its head makes of what its arguments are worth.
pub fn law_make<W: World>(world: &W)
    ensures { (a : Arena) → IsArena a → IsWorthOfHeads a (answers a.shapes a.decls (W.apply world.now)) }
{}

/// Equal terms of an arena have one id.
pub fn law_one_id()
    ensures { (a : Arena) → IsArena a → HasOneId a }
{}

/// Each term of an arena is well sorted.
pub fn law_sorted()
    ensures { (a : Arena) → IsArena a → IsWellSorted a }
{}

/// The types that the sorts of an arena's terms name are there.
pub fn law_types()
    ensures { (a : Arena) → IsArena a → NamesTypes a }
{}

/// An arena that grows keeps what its ids stand for.
pub fn law_grows()
    ensures { (old new : Arena) → Extends old new → KeepsOld old new }
{}
