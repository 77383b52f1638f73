// Terms under the limit of the arena.

ghost use Rattle.std.specs.Prelude.{◌≡◌, ◌∷◌, [], List, length, IfOk, IsSome, IsTrue, Ok, Some};
ghost use Rattle.spv_logic.specs.Terms.{Term, term};
ghost use Rattle.spv_logic.specs.Sorts.{head_in_range, numeral_fits, result_sort};
ghost use Rattle.spv_term.specs.Arena.{AllBelow, Arena, Extends, sort_at, sorts_at, trees};
ghost use Rattle.spv_assign.specs.creation_trace.Events.{Answers};
ghost use Rattle.spv_assign.specs.creation_trace.StatementEvents.{one, several};
ghost use Rattle.spv_assign.specs.limited_steps.Makes.{IsTerm, Makes, fault_of};

use crate::creation_trace::GenFault;
use spv_logic::Head;
use spv_term::{TermFault, TermId, Terms};

fn fault_of(fault: TermFault, most: u32) -> GenFault
    ensures { result ≡ fault_of fault most }
{
    match fault {
        TermFault::Size => GenFault::Terms(most),
        TermFault::Memory => GenFault::Memory,
    }
}

/// What a call on the arena answered, where the fault that the arena is full tells how many terms it may have.
pub fn limited<T: Drop>(terms: &Terms, made: Result<T, TermFault>) -> Result<T, GenFault>
    ensures same { IfOk result (λ x. made ≡ Ok x) }
    ensures walk { (old : Arena) (ts : List Term) → Makes made old terms.now ts → Answers result (several ts) old terms.now }
{
    match made {
        Ok(x) => Ok(x),
        Err(fault) => Err(fault_of(fault, terms.most())),
    }
}

/// The term of this head over these terms, which fit it.
pub fn made(terms: &mut Terms, head: Head, args: &[TermId]) -> Result<TermId, GenFault>
    requires args { AllBelow (length terms.old.nodes) args.now }
    requires sorts { IsSome (result_sort terms.old.shapes terms.old.decls head (sorts_at terms.old args.now)) }
    requires types { IsTrue (head_in_range terms.old.shapes head) }
    requires numeral { IsTrue (numeral_fits head) }
    ensures term { IfOk result (λ t. IsTerm terms.new t (term head (trees terms.old args.now))) }
    ensures sort { IfOk result (λ t. result_sort terms.old.shapes terms.old.decls head (sorts_at terms.old args.now) ≡ Some (sort_at terms.new t)) }
    ensures grows { Extends terms.old terms.new }
    ensures walk { Answers result (one (term head (trees terms.old args.now))) terms.old terms.new }
{
    terms.law_arena();
    let made = terms.make(head, args);
    limited(terms, made)
}
