// Fresh variables in the place of others.

ghost use Rattle.std.specs.Prelude.{◌≡◌, ◌∷◌, [], IfOk, IsTrue, OnOk};
ghost use Rattle.spv_logic.specs.Sorts.{head_in_range};
ghost use Rattle.spv_logic.specs.Substitution.{is_variable};
ghost use Rattle.spv_term.specs.Arena.{Extends};
ghost use Rattle.spv_program.specs.Supplies as spec;
ghost use Rattle.spv_program.specs.Terms.{alone};
ghost use Rattle.spv_assign.specs.supply.Numbers.{supply_of, AreThere};
ghost use Rattle.spv_assign.specs.creation_trace.Events.{Answers};
ghost use Rattle.spv_assign.specs.creation_trace.StatementEvents.{several};
ghost use Rattle.spv_assign.specs.limited_steps.Makes.{IsFreshPair};

use crate::creation_trace::GenFault;
use crate::limited_steps::making::{limited, made};
use crate::supply::Supply;
use spv_logic::Head;
use spv_term::{TermId, Terms};

/// A variable or class, and a fresh one that takes its place. Each number that was taken is that of a term.
pub fn fresh_pair(
    terms: &mut Terms,
    supply: &mut Supply,
    head: Head,
) -> Result<(TermId, TermId), GenFault>
    requires variable { IsTrue (is_variable head) }
    requires types { IsTrue (head_in_range terms.old.shapes head) }
    requires there { AreThere terms.old (supply_of supply.old) }
    ensures fresh { IfOk result (λ p. IsFreshPair terms.new supply.new p head (supply_of supply.old)) }
    ensures grows { Extends terms.old terms.new }
    ensures there { OnOk result (AreThere terms.new (supply_of supply.new)) }
    ensures walk { Answers result (several (alone head ∷ alone (spec.fresh_like head (supply_of supply.old)).head ∷ [])) terms.old terms.new }
{
    let from = made(terms, head, &[])?;
    let fresh = supply.fresh_like(terms, from);
    let to = limited(terms, fresh)?;
    Ok((from, to))
}
