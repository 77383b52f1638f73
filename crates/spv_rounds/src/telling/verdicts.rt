// A proof and a limit, told of a condition under rules.

ghost use Rattle.std.specs.Prelude.{◌≡◌, List as Items, IfOk};
ghost use Rattle.spv_logic.specs.declared.operators.Head.TheVariants.{False};
ghost use Rattle.spv_logic.specs.Terms.{term, no_terms};
ghost use Rattle.spv_proof_rules.specs.Rules.{Rule};
ghost use Rattle.spv_search_terms.specs.condition_copy.Copies.{StandsFor};
ghost use Rattle.spv_verdicts.specs.Verdicts.{Limits};
ghost use Rattle.spv_rounds.specs.knowing.Known.{RoundsStand};
ghost use Rattle.spv_rounds.specs.telling.Told.{settled_question, ProofTold, LimitTold};

use crate::knowing::Settled;
use crate::laws::{law_kept, law_proved};
use crate::telling::steps::replaced;
use spv_atoms::Proof;
use spv_verdicts::answers::Limit;
use spv_verdicts::translation::{exchanged_proof, exchanged_tree};
use std::alloc::{AllocError, Global};

/// A proof that all is refuted, told of the condition: steps of rules stand in the place of what the members of the rounds say.
pub fn proved(alloc: Global, s: &Settled, proof: &Proof) -> Result<Proof, AllocError>
    requires { StandsFor s.now.terms s.now.falsity (term False no_terms) }
    ensures { IfOk result (λ p. (rules : Items Rule) → RoundsStand (settled_question rules s.now) s.now.terms s.now.rounds → ProofTold rules s.now proof.now p) }
{
    law_proved();
    let steps = replaced(alloc, s)?;
    exchanged_proof(alloc, steps.as_slice(), proof)
}

/// A limit of a search that all is refuted, told of the condition.
pub fn told_limit(alloc: Global, s: &Settled, limit: Limit) -> Result<Limit, AllocError>
    requires { StandsFor s.now.terms s.now.falsity (term False no_terms) }
    ensures { IfOk result (λ l. (rules : Items Rule) (limits : Limits) → RoundsStand (settled_question rules s.now) s.now.terms s.now.rounds → LimitTold rules limits s.now limit l) }
{
    law_kept();
    match limit {
        Limit::Splits(tree) => {
            let steps = replaced(alloc, s)?;
            Ok(Limit::Splits(exchanged_tree(alloc, steps.as_slice(), &tree)?))
        }
        Limit::Instances => Ok(Limit::Instances),
        Limit::Number(wide) => Ok(Limit::Number(wide)),
        Limit::Pivots(evidence) => Ok(Limit::Pivots(evidence)),
        Limit::Terms(most) => Ok(Limit::Terms(most)),
    }
}
