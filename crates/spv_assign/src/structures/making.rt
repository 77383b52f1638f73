// A head over terms.

ghost use Rattle.std.specs.Prelude.{length, IsSome, IsTrue};
ghost use Rattle.spv_logic.specs.Terms.{term};
ghost use Rattle.spv_logic.specs.Sorts.{head_in_range, numeral_fits, term_sort};
ghost use Rattle.spv_term.specs.Arena.{AllBelow, trees};
ghost use Rattle.spv_assign.specs.structures.Making.{GivesTerm};

use spv_logic::Head;
use spv_term::{TermFault, TermId, Terms};

// The term of this head over these terms, which fit it.
pub(crate) fn over(terms: &mut Terms, head: Head, args: &[TermId]) -> Result<TermId, TermFault>
    requires args { AllBelow (length terms.old.nodes) args.now }
    requires sorts { IsSome (term_sort terms.old.shapes terms.old.decls (term head (trees terms.old args.now))) }
    requires types { IsTrue (head_in_range terms.old.shapes head) }
    requires numeral { IsTrue (numeral_fits head) }
    ensures { GivesTerm result (term head (trees terms.old args.now)) terms.old terms.new }
{
    terms.law_arena();
    terms.make(head, args)
}
