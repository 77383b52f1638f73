//! What follows from equalities by reflexivity, symmetry, transitivity and the congruence of added terms.

ghost use Rattle.std.specs.Prelude.{◌≡◌, List};
ghost use Rattle.spv_logic.specs.declared.conditions.TermId.{TermId};
ghost use Rattle.spv_term.specs.Arena.{Arena, IsArena};
ghost use Rattle.spv_term.specs.closure.Laws.{KeepsJoined, Listed};

/// Numbers that respect congruence are equal for terms that are joined, here where nothing was told.
pub fn law_kept()
    ensures { (a : Arena) → IsArena a → (ids : List TermId) → KeepsJoined a (Listed ids) (λ s t. s ≡ t) }
{}
