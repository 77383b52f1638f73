// A round more.

ghost use Rattle.std.specs.Prelude.{◌≡◌, ◌+◌, ◌++◌, ◌∷◌, [], ◌≤◌, length, IfOk, OnOk};
ghost use Rattle.spv_term.specs.Arena.{Arena};
ghost use Rattle.spv_term.specs.declared.nodes.Condition as coded;
ghost use Rattle.spv_proof_rules.specs.Stand.{question_under};
ghost use Rattle.spv_rules.specs.RuleSets.{rules_in};
ghost use Rattle.spv_verdicts.specs.Verdicts.{Limits};
ghost use Rattle.spv_verdicts.specs.answers.Views.{instances_in, pairs_in};
ghost use Rattle.spv_rounds.specs.Rounds.{IsRound};
ghost use Rattle.spv_rounds.specs.moving.Moves.{AreMoves};
ghost use Rattle.spv_rounds.specs.knowing.Known.{IsKnown, members_in};
ghost use Rattle.spv_rounds.specs.growing.Growth.{RoundFound, Grew};

use crate::growing::saying::say;
use crate::knowing::Known;
use crate::moving::{moved_instances, moved_table};
use spv_logic::list::List;
use spv_rules::Rules;
use spv_table::Table;
use spv_term::{Condition, TermFault, TermId, Terms};
use spv_verdicts::answers::{Instance, Round};
use std::alloc::{AllocError, Global};

// A round that was found in another arena.
fn round_of(
    alloc: Global,
    places: &[Option<TermId>],
    table: &Table,
    members: &[Instance],
) -> Result<Round, TermFault>
    ensures { IfOk result (λ r. (a : Arena) (b : Arena) → AreMoves a b places.now → RoundFound a b table.now members.now r) }
{
    let table = moved_table(alloc, places, table)?;
    let members = moved_instances(alloc, places, members)?;
    Ok(Round { table, members })
}

// Terms come behind the hypotheses of a condition.
fn add_all(alloc: Global, claim: &mut Condition, said: &[TermId]) -> Result<(), AllocError>
    ensures given { OnOk result (claim.new.given ≡ claim.old.given ++ said.now) }
    ensures goal { OnOk result (claim.new.goal ≡ claim.old.goal) }
    ensures origin { OnOk result (claim.new.origin ≡ claim.old.origin) }
{
    let mut given = Vec::new(alloc);
    given.extend_from_slice(claim.given.as_slice())?;
    given.extend_from_slice(said)?;
    claim.given = List::from_vec(given);
    Ok(())
}

// Puts a round behind others.
fn push(rounds: &mut Vec<Round>, round: Round) -> Result<(), AllocError>
    ensures { OnOk result (rounds.new.items ≡ rounds.old.items ++ round ∷ []) }
{
    rounds.push(round)?;
    Ok(())
}

/// A round more: its table and its members stand in another arena, whose terms are known at these places. What its members say comes to the claim.
/// There is no memory where one says nothing.
pub fn grow(
    alloc: Global,
    rules: &Rules,
    known: &mut Known,
    from: &Terms,
    places: &[Option<TermId>],
    table: &Table,
    members: &[Instance],
) -> Result<(), TermFault>
    requires moves { AreMoves from.now known.old.terms places.now }
    requires shapes { rules.now.arena.shapes ≡ known.old.terms.shapes }
    requires decls { rules.now.arena.decls ≡ known.old.terms.decls }
    ensures { OnOk result ((a : Arena) (c : coded.Condition) (limits : Limits) → IsKnown (rules_in rules.now) a c limits known.old
        → IsRound (question_under (rules_in rules.now) a c) (members_in known.old.terms known.old.rounds.items) (record { table = pairs_in from.now table.now.values; members = instances_in from.now members.now })
        → length (members_in known.old.terms known.old.rounds.items) + length members.now ≤ limits.instances
        → Grew (rules_in rules.now) a c limits known.old members.now known.new) }
{
    let _ = from;
    let round = round_of(alloc, places, table, members)?;
    let said = say(alloc, rules, &mut known.terms, round.members.as_slice())?;
    add_all(alloc, &mut known.claim, said.as_slice())?;
    push(&mut known.rounds, round)?;
    Ok(())
}
