// A proof or a limit makes a verdict.

ghost use Rattle.std.specs.Prelude.{◌≡◌, ◌≤◌, true, length, List as Items, IfOk};
ghost use Rattle.spv_term.specs.Arena.{Arena};
ghost use Rattle.spv_term.specs.declared.nodes.Condition as coded;
ghost use Rattle.spv_proof_rules.specs.Rules.{Rule};
ghost use Rattle.spv_proof_rules.specs.Accepted.{accepts};
ghost use Rattle.spv_proof_rules.specs.Stand.{NodesIn};
ghost use Rattle.spv_verdicts.specs.Verdicts.{Limits};
ghost use Rattle.spv_rounds.specs.Right.{IsDecidedByRounds};
ghost use Rattle.spv_rounds.specs.knowing.Known.{IsSettled};
ghost use Rattle.spv_rounds.specs.telling.Told.{settled_members, settled_claim};
ghost use Rattle.spv_rounds.specs.judging.Judged.{HasSettled, IsLimitIn};

use crate::knowing::Settled;
use crate::telling::{proved, told_limit};
use spv_atoms::Proof;
use spv_verdicts::answers::{Decided, Limit, Verdict};
use std::alloc::{AllocError, Global};

/// What a proof that all is refuted decides.
pub(crate) fn accepted(alloc: Global, s: Settled, proof: &Proof) -> Result<Decided, AllocError>
    requires { HasSettled s }
    ensures { IfOk result (λ d. (rules : Items Rule) (a : Arena) (c : coded.Condition) (limits : Limits) → IsSettled rules a c s
        → NodesIn s.terms proof.now → accepts (settled_claim rules s) proof.now ≡ true → IsDecidedByRounds rules a c limits d) }
{
    let told = proved(alloc, &s, proof)?;
    Ok(Decided {
        terms: s.terms,
        condition: s.condition,
        verdict: Verdict::Proved(told),
    })
}

/// What a limit of a search that all is refuted decides.
pub(crate) fn stopped(alloc: Global, s: Settled, limit: Limit) -> Result<Decided, AllocError>
    requires { HasSettled s }
    ensures { IfOk result (λ d. (rules : Items Rule) (a : Arena) (c : coded.Condition) (limits : Limits) → IsSettled rules a c s
        → length (settled_members s) ≤ limits.instances → IsLimitIn rules limits s limit → IsDecidedByRounds rules a c limits d) }
{
    let told = told_limit(alloc, &s, limit)?;
    Ok(Decided {
        terms: s.terms,
        condition: s.condition,
        verdict: Verdict::GaveUp(s.rounds, told),
    })
}
