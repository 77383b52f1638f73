// What was decided of a condition, with a shorter proof.

ghost use Rattle.std.specs.Prelude.{IfOk};
ghost use Rattle.spv_term.specs.declared.nodes.Condition.{Condition};
ghost use Rattle.spv_term.specs.Arena.{Arena};
ghost use Rattle.spv_verdicts.specs.Verdicts.{Limits};
ghost use Rattle.spv_verdicts.specs.answers.Views.{IsDecided};
ghost use Rattle.spv_trimming.specs.Deciding.{WasDecided, StaysDecided};

use crate::trimming::trimmed;
use spv_verdicts::answers::{Decided, Verdict};
use std::alloc::{AllocError, Global};

/// What was decided of a condition; where that is a proof, with a shorter one, if one is found.
pub fn with_shorter_proof(alloc: Global, decided: Decided) -> Result<Decided, AllocError>
    requires decided { WasDecided decided }
    ensures decided { IfOk result (StaysDecided decided) }
{
    let Decided {
        terms,
        condition,
        verdict,
    } = decided;
    match verdict {
        Verdict::Proved(proof) => {
            let mut terms = terms;
            let shorter = trimmed(alloc, &mut terms, &condition, proof)?;
            Ok(Decided {
                terms,
                condition,
                verdict: Verdict::Proved(shorter),
            })
        }
        verdict => Ok(Decided {
            terms,
            condition,
            verdict,
        }),
    }
}
