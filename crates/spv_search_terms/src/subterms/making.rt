// One more term in an arena.

ghost use Rattle.std.specs.Prelude.{◌≡◌, ◌<◌, [], ◌∷◌, length, Err, IsSome, IsTrue, IfOk, OnOk};
ghost use Rattle.spv_logic.specs.Terms.{term};
ghost use Rattle.spv_logic.specs.Sorts as spec;
ghost use Rattle.spv_term.specs.declared.nodes.TermFault.TheVariants.{Size};
ghost use Rattle.spv_term.specs.Arena.{AllBelow, tree, trees, sorts_at, Extends};
ghost use Rattle.spv_search_terms.specs.subterms.Gaining.{Gains, Stops};

use spv_term::{Head, TermFault, TermId, Terms};

/// The term of this head over these terms, as `Terms::make` gives it; the trees of the arena's nodes
/// are what they were, with its tree where it was not among them. `Size` comes only where they
/// would then be more than the arena may have.
pub fn made(terms: &mut Terms, head: Head, args: &[TermId]) -> Result<TermId, TermFault>
    requires args { AllBelow (length terms.old.nodes) args.now }
    requires sorts { IsSome
        (spec.result_sort terms.old.shapes terms.old.decls head (sorts_at terms.old args.now)) }
    requires types { IsTrue (spec.head_in_range terms.old.shapes head) }
    requires numeral { IsTrue (spec.numeral_fits head) }
    ensures gains { OnOk result
        (Gains terms.old terms.new (term head (trees terms.old args.now) ∷ [])) }
    ensures tree { IfOk result (λ t. tree terms.new t ≡ term head (trees terms.old args.now)) }
    ensures in_range { IfOk result (λ t. t.0 < length terms.new.nodes) }
    ensures grows { Extends terms.old terms.new }
    ensures size { result ≡ Err Size → Stops terms.old (term head (trees terms.old args.now) ∷ []) }
{
    terms.law_arena();
    terms.make(head, args)
}
