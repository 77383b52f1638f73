// The branch of a condition, taken from one of what is refuted together with facts of schemas.

ghost use Rattle.std.specs.Prelude.{◌≡◌, ◌<◌, Bool, List as Items, take, length, IfOk};
ghost use Rattle.spv_whole.specs.Fraction.{Fraction};
ghost use Rattle.spv_logic.specs.Terms.{Term};
ghost use Rattle.spv_term.specs.Arena.{AllBelow};
ghost use Rattle.spv_proof_rules.specs.Stand.{question};
ghost use Rattle.spv_verdicts.specs.answers.Views.{CasesIn, branch_in};
ghost use Rattle.spv_verdicts.specs.Verdicts.{Survives, condition_atoms};
ghost use Rattle.spv_verdicts.specs.Schemas.{SurvivesFacts, enlarged};

use crate::model_check::atoms_of;
use spv_logic::list::List;
use spv_term::{Condition, TermId, Terms};
use std::alloc::{AllocError, Global};

/// The atoms of a condition with their truths, from a branch of what is refuted together with facts of
/// schemas: there the condition's own atoms come first, in their order. A table that survives with that branch survives for the
/// condition with this one.
pub fn own_branch(
    alloc: Global,
    terms: &Terms,
    condition: &Condition,
    branch: &[(TermId, bool)],
) -> Result<List<(TermId, bool)>, AllocError>
    requires given { AllBelow (length terms.now.nodes) condition.now.given }
    requires goal { condition.now.goal.0 < length terms.now.nodes }
    ensures first { IfOk result
        (λ own. own ≡ take (length (condition_atoms (question terms.now condition.now))) branch.now) }
    ensures survives { IfOk result
        (λ own. (table : Items (Term × Fraction)) → Survives (enlarged (question terms.now condition.now)) (branch_in terms.now branch.now) table
        → SurvivesFacts (question terms.now condition.now) (branch_in terms.now own) table) }
    ensures terms { IfOk result (λ own. CasesIn terms.now branch.now → CasesIn terms.now own) }
{
    let count = atoms_of(alloc, terms, condition)?.len().min(branch.len());
    let own = branch[..count].to_vec(alloc)?;
    Ok(List::from_vec(own))
}
