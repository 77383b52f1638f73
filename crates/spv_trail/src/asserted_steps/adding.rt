// Facts that come behind those of a path.

ghost use Rattle.std.specs.Prelude.{◌≡◌, ◌+◌, ◌++◌, [], ◌∷◌, length, List, IfOk};
ghost use Rattle.spv_logic.specs.Terms.{Term};
ghost use Rattle.spv_term.specs.Arena.{tree};
ghost use Rattle.spv_proof_rules.specs.Effects.{Adds, effect, given_effect};
ghost use Rattle.spv_proof_rules.specs.Stand.{question};
ghost use Rattle.spv_derivations.specs.derivation.Derivation.{literal};
ghost use Rattle.spv_derivations.specs.branches.Paths.{facts_in, IsPath, IsSearchStep};
ghost use Rattle.spv_trail.specs.asserted_steps.Steps.{IsDerived};

use spv_atoms::Step;
use spv_derivations::derivation::{Derivation, Part};
use spv_term::{Condition, TermId, Terms};
use std::alloc::AllocError;

// How many facts there are, as a number of 32 bits; want of memory where it has more.
fn count_of(derivation: &Derivation) -> Result<u32, AllocError>
    ensures { IfOk result (λ n. n ≡ length derivation.now) }
{
    let count = derivation.len();
    if count > u32::MAX as usize {
        return Err(AllocError);
    }
    Ok(count as u32)
}

/// Puts the fact of a step, which gives a hypothesis or evaluates, behind those of a path, and answers its number. Where a number would be too
/// large the answer is want of memory.
pub fn derive(
    derivation: &mut Derivation,
    terms: &Terms,
    condition: &Condition,
    step: Step,
) -> Result<u32, AllocError>
    requires { IsSearchStep step }
    ensures { IfOk result (λ n. (cases : List Term) (f : Term) → IsPath (question terms.now condition.now) cases derivation.old
        → effect (question terms.now condition.now) (facts_in (question terms.now condition.now) derivation.old) step ≡ Adds f
        → IsDerived (question terms.now condition.now) cases derivation.old derivation.new n f) }
{
    let _ = terms;
    let _ = condition;
    derivation.derive(step)?;
    count_of(derivation)
}

/// Puts a hypothesis, by its number from 1, or by 0 that the goal is false, behind the facts of a path.
pub fn give(
    derivation: &mut Derivation,
    terms: &Terms,
    condition: &Condition,
    number: u32,
) -> Result<u32, AllocError>
    ensures { IfOk result (λ n. (cases : List Term) (f : Term) → IsPath (question terms.now condition.now) cases derivation.old
        → given_effect (question terms.now condition.now).sequent number ≡ Adds f
        → IsDerived (question terms.now condition.now) cases derivation.old derivation.new n f) }
{
    derive(derivation, terms, condition, Step::Given(number))
}

/// Puts a case behind the facts of a path. `why` is its number among the cases.
pub fn tell(
    derivation: &mut Derivation,
    terms: &Terms,
    condition: &Condition,
    atom: TermId,
    part: Part,
    why: u32,
) -> Result<u32, AllocError>
    ensures { IfOk result (λ n. (cases : List Term) → IsPath (question terms.now condition.now) cases derivation.old → why ≡ length cases + 1
        → IsDerived (question terms.now condition.now) (cases ++ literal (tree terms.now atom) part ∷ []) derivation.old derivation.new n (literal (tree terms.now atom) part)) }
{
    let _ = terms;
    let _ = condition;
    derivation.told(atom, part, why)?;
    count_of(derivation)
}
