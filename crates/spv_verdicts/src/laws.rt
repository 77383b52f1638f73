// What is true of the verdicts of a search, each law the contract of a function that does nothing.

ghost use Rattle.spv_term.specs.Arena.{Arena};
ghost use Rattle.spv_verdicts.specs.Examples as example;
ghost use Rattle.spv_verdicts.specs.Verdicts.{IsRight};
ghost use Rattle.spv_verdicts.specs.Laws.{AsksTooMany, CopiesTooMany, HasAtoms, HasParts, SplitsAreFew};

/// The terms that count for the limit of terms: each subterm of the condition is among them, and each
/// atom. Where a copy of the condition has no room, or its atoms have none, they are more than the limit.
pub fn law_terms()
    ensures parts { HasParts }
    ensures atoms { HasAtoms }
    ensures copies { CopiesTooMany }
    ensures asks { AsksTooMany }
{}

/// Giving up for want of splits comes only where fewer splits are allowed than 3 to the power of the number
/// of atoms.
pub fn law_splits()
    ensures { SplitsAreFew }
{}

/// A condition that claims a truth value of which nothing is known: it is unproved, with its one table. Other
/// verdicts lack one thing each, and are not right.
pub fn law_examples()
    ensures expected { example.IsRightHere example.expected }
    ensures other_branch { (a : Arena) → IsRight a example.claim example.limits example.other_branch → ⊥ }
    ensures no_branch { (a : Arena) → IsRight a example.claim example.limits example.no_branch → ⊥ }
    ensures true_table { (a : Arena) → IsRight a example.claim example.limits example.true_table → ⊥ }
    ensures no_table { (a : Arena) → IsRight a example.claim example.limits example.no_table → ⊥ }
    ensures few_terms { (a : Arena) → IsRight a example.claim example.limits example.few_terms → ⊥ }
    ensures no_relation { (a : Arena) → IsRight a example.claim example.limits example.no_relation → ⊥ }
    ensures with_instance { (a : Arena) → IsRight a example.claim example.limits example.with_instance → ⊥ }
    ensures no_more_instances { (a : Arena) → IsRight a example.claim example.limits example.no_more_instances → ⊥ }
    ensures not_accepted { (a : Arena) → IsRight a example.claim example.limits example.not_accepted → ⊥ }
{}
