// What a search for the claim makes.

ghost use Rattle.std.specs.Prelude.{◌≡◌, ◌<◌, length, IfOk};
ghost use Rattle.spv_term.specs.Arena.{Arena};
ghost use Rattle.spv_term.specs.declared.nodes.Condition as coded;
ghost use Rattle.spv_rules.specs.RuleSets.{rules_in};
ghost use Rattle.spv_verdicts.specs.answers.Views.{IsDecidedWith, rounds_in};
ghost use Rattle.spv_rounds.specs.moving.Moves.{AreMoves};
ghost use Rattle.spv_rounds.specs.knowing.Known.{IsKnown, IsSettled};
ghost use Rattle.spv_rounds.specs.judging.Judged.{HasSettled, IsFoundIn, Judged};

use crate::judging::ended::{accepted, stopped};
use crate::judging::surviving::judged;
use crate::knowing::{Known, Settled, settle};
use crate::moving::{back, bring};
use spv_rules::Rules;
use spv_term::{Condition, TermId, Terms};
use spv_verdicts::answers::{Decided, Limits, Verdict};
use std::alloc::{AllocError, Global};

// What a verdict on the claim makes of the condition.
fn made_of(
    alloc: Global,
    rules: &Rules,
    limits: &Limits,
    known: &mut Known,
    places: &[Option<TermId>],
    s: Settled,
    verdict: Verdict,
) -> Result<Option<Decided>, AllocError>
    requires settled { HasSettled s }
    requires found { IsFoundIn (rules_in rules.now) limits.now s verdict }
    requires moves { AreMoves s.terms known.old.terms places.now }
    requires shapes { rules.now.arena.shapes ≡ known.old.terms.shapes }
    requires decls { rules.now.arena.decls ≡ known.old.terms.decls }
    ensures { IfOk result (λ o. (a : Arena) (c : coded.Condition) → IsSettled (rules_in rules.now) a c s → IsKnown (rules_in rules.now) a c limits.now known.old
        → rounds_in s.terms s.rounds ≡ rounds_in known.old.terms known.old.rounds.items
        → Judged (rules_in rules.now) a c limits.now known.old o known.new) }
{
    match verdict {
        Verdict::Proved(proof) => Ok(Some(accepted(alloc, s, &proof)?)),
        Verdict::Unproved(u) => judged(alloc, rules, limits, known, places, s, u),
        Verdict::GaveUp(_, limit) => Ok(Some(stopped(alloc, s, limit)?)),
        Verdict::NotAccepted => unreachable!(),
    }
}

/// What was decided of the claim that all is refuted makes: a verdict on the condition under the rules, or a round more.
pub fn turn_by(
    alloc: Global,
    rules: &Rules,
    from: &Terms,
    whole: &Condition,
    limits: &Limits,
    known: &mut Known,
    decided: Decided,
) -> Result<Option<Decided>, AllocError>
    requires known { IsKnown (rules_in rules.now) from.now whole.now limits.now known.old }
    requires decided { IsDecidedWith known.old.terms known.old.claim limits.now decided }
    requires shapes { rules.now.arena.shapes ≡ from.now.shapes }
    requires decls { rules.now.arena.decls ≡ from.now.decls }
    ensures { IfOk result (λ o. Judged (rules_in rules.now) from.now whole.now limits.now known.old o known.new) }
{
    let Decided {
        terms,
        condition: claim,
        verdict,
    } = decided;
    let Ok(places) = bring(alloc, &mut known.terms, &terms) else {
        return Err(AllocError);
    };
    let home = back(alloc, places.as_slice(), &known.terms, &terms)?;
    let s = settle(
        alloc,
        from,
        whole,
        &known.terms,
        known.rounds.as_slice(),
        home.as_slice(),
        terms,
        &claim,
    )?;
    made_of(alloc, rules, limits, known, places.as_slice(), s, verdict)
}
