// A table in which all holds makes a verdict, or calls for instances.

ghost use Rattle.std.specs.Prelude.{◌≡◌, ◌<◌, ◌+◌, ◌≤◌, suc, [], take, length, List as Items, Ok, Err, IfOk};
ghost use Rattle.spv_term.specs.Arena.{Arena, tree};
ghost use Rattle.spv_term.specs.declared.nodes.Condition as coded;
ghost use Rattle.spv_proof_rules.specs.Rules.{Rule};
ghost use Rattle.spv_table.specs.Kept.{PairsIn};
ghost use Rattle.spv_rules.specs.RuleSets.{rules_in};
ghost use Rattle.spv_rules.specs.matching.Views.{IsMatchFault};
ghost use Rattle.spv_verdicts.specs.Verdicts.{Limits};
ghost use Rattle.spv_verdicts.specs.answers.Views.{pairs_in, rounds_in};
ghost use Rattle.spv_rounds.specs.Claims.{FalsifiesWith};
ghost use Rattle.spv_rounds.specs.Rounds.{called, matched};
ghost use Rattle.spv_rounds.specs.Right.{IsDecidedByRounds};
ghost use Rattle.spv_rounds.specs.moving.Moves.{AreMoves};
ghost use Rattle.spv_rounds.specs.knowing.Known.{IsKnown, IsSettled, members_in};
ghost use Rattle.spv_rounds.specs.telling.Told.{settled_question, settled_members};
ghost use Rattle.spv_rounds.specs.judging.Judged.{HasSettled, IsUnprovedIn, Calls, Judged};

use crate::growing::grow;
use crate::judging::calls::calls;
use crate::judging::counting::{members, room};
use crate::knowing::{Known, Settled};
use spv_logic::list::List;
use spv_rules::Rules;
use spv_rules::matching::MatchFault;
use spv_table::{Table, WideValue};
use spv_term::TermId;
use spv_verdicts::answers::{Decided, Instance, Limit, Limits, Round, Unproved, Verdict, Wide};
use spv_verdicts::translation::own_branch;
use std::alloc::{AllocError, Global};

// A table that calls for no further instance.
fn survived(alloc: Global, s: Settled, u: Unproved) -> Result<Decided, AllocError>
    requires { HasSettled s }
    ensures { IfOk result (λ d. (rules : Items Rule) (a : Arena) (c : coded.Condition) (limits : Limits) → IsSettled rules a c s → IsUnprovedIn rules s u
        → called (settled_question rules s) (settled_members s) (pairs_in s.terms u.table.values) ≡ Ok [] → IsDecidedByRounds rules a c limits d) }
{
    let branch = own_branch(alloc, &s.terms, &s.condition, u.branch.as_slice())?;
    let instances = members(alloc, s.rounds.as_slice())?;
    Ok(Decided {
        terms: s.terms,
        condition: s.condition,
        verdict: Verdict::Unproved(Unproved {
            branch,
            table: u.table,
            instances,
        }),
    })
}

// A table in which a test of a match meets a value that is too wide.
fn too_wide(s: Settled, table: Table, t: TermId, wide: WideValue) -> Decided
    ensures { (rules : Items Rule) (a : Arena) (c : coded.Condition) (limits : Limits) → IsSettled rules a c s → length (settled_members s) ≤ limits.instances
        → PairsIn s.terms table.values → t.0 < length s.terms.nodes → FalsifiesWith (settled_question rules s) (settled_members s) (pairs_in s.terms table.values)
        → matched (settled_question rules s) (settled_members s) (pairs_in s.terms table.values) ≡ Err (tree s.terms t, wide) → IsDecidedByRounds rules a c limits result }
{
    Decided {
        terms: s.terms,
        condition: s.condition,
        verdict: Verdict::GaveUp(
            s.rounds,
            Limit::Number(Wide::Value(table, t, wide.op, wide.left, wide.right)),
        ),
    }
}

// A table in which matches are not known.
fn unmatched(s: Settled, table: Table, fault: MatchFault) -> Result<Decided, AllocError>
    ensures { IfOk result (λ d. (rules : Items Rule) (a : Arena) (c : coded.Condition) (limits : Limits) → IsSettled rules a c s → length (settled_members s) ≤ limits.instances
        → PairsIn s.terms table.values → FalsifiesWith (settled_question rules s) (settled_members s) (pairs_in s.terms table.values)
        → IsMatchFault s.terms (matched (settled_question rules s) (settled_members s) (pairs_in s.terms table.values)) fault → IsDecidedByRounds rules a c limits d) }
{
    match fault {
        MatchFault::Wide(t, wide) => Ok(too_wide(s, table, t, wide)),
        MatchFault::Memory => Err(AllocError),
    }
}

// The first so many of these.
fn first(instances: Vec<Instance>, count: usize) -> List<Instance>
    ensures { result ≡ take count instances.items }
{
    let mut instances = instances;
    instances.truncate(count);
    List::from_vec(instances)
}

// One instance more than there may be.
fn too_many(
    s: Settled,
    table: Table,
    found: Vec<Instance>,
    count: usize,
) -> Result<Decided, AllocError>
    ensures { IfOk result (λ d. (rules : Items Rule) (a : Arena) (c : coded.Condition) (limits : Limits) → IsSettled rules a c s
        → PairsIn s.terms table.values → FalsifiesWith (settled_question rules s) (settled_members s) (pairs_in s.terms table.values)
        → Calls rules s table found.items → 0 < count → count ≤ length found.items → length (settled_members s) + count ≡ suc limits.instances → IsDecidedByRounds rules a c limits d) }
{
    let mut rounds = s.rounds;
    let members = first(found, count);
    rounds.push(Round { table, members })?;
    Ok(Decided {
        terms: s.terms,
        condition: s.condition,
        verdict: Verdict::GaveUp(rounds, Limit::Instances),
    })
}

// What instances that a table calls for make: one more round, or the limit is reached.
fn added(
    alloc: Global,
    rules: &Rules,
    limits: &Limits,
    known: &mut Known,
    places: &[Option<TermId>],
    s: Settled,
    table: Table,
    found: Vec<Instance>,
) -> Result<Option<Decided>, AllocError>
    requires moves { AreMoves s.terms known.old.terms places.now }
    requires shapes { rules.now.arena.shapes ≡ known.old.terms.shapes }
    requires decls { rules.now.arena.decls ≡ known.old.terms.decls }
    requires some { 0 < length found.items }
    ensures { IfOk result (λ o. (a : Arena) (c : coded.Condition) → IsSettled (rules_in rules.now) a c s → IsKnown (rules_in rules.now) a c limits.now known.old
        → rounds_in s.terms s.rounds ≡ rounds_in known.old.terms known.old.rounds.items → PairsIn s.terms table.values
        → FalsifiesWith (settled_question (rules_in rules.now) s) (settled_members s) (pairs_in s.terms table.values)
        → Calls (rules_in rules.now) s table found.items → Judged (rules_in rules.now) a c limits.now known.old o known.new) }
{
    let Some(left) = room(s.rounds.as_slice(), limits.instances()) else {
        return Err(AllocError);
    };
    if found.len() as u64 > left {
        return Ok(Some(too_many(s, table, found, left as usize + 1)?));
    }
    match grow(
        alloc,
        rules,
        known,
        &s.terms,
        places,
        &table,
        found.as_slice(),
    ) {
        Ok(()) => Ok(None),
        Err(_) => Err(AllocError),
    }
}

/// What a table in which all that is refuted holds makes: it falsifies the condition where it calls for no further instance; else these
/// make a round more, or the limit is reached.
pub(crate) fn judged(
    alloc: Global,
    rules: &Rules,
    limits: &Limits,
    known: &mut Known,
    places: &[Option<TermId>],
    s: Settled,
    u: Unproved,
) -> Result<Option<Decided>, AllocError>
    requires settled { HasSettled s }
    requires pairs { PairsIn s.terms u.table.values }
    requires moves { AreMoves s.terms known.old.terms places.now }
    requires shapes { rules.now.arena.shapes ≡ known.old.terms.shapes }
    requires decls { rules.now.arena.decls ≡ known.old.terms.decls }
    ensures { IfOk result (λ o. (a : Arena) (c : coded.Condition) → IsSettled (rules_in rules.now) a c s → IsKnown (rules_in rules.now) a c limits.now known.old
        → rounds_in s.terms s.rounds ≡ rounds_in known.old.terms known.old.rounds.items → IsUnprovedIn (rules_in rules.now) s u
        → Judged (rules_in rules.now) a c limits.now known.old o known.new) }
{
    match calls(alloc, rules, &s, &u.table) {
        Ok(found) => {
            if found.as_slice().len() == 0 {
                return Ok(Some(survived(alloc, s, u)?));
            }
            added(alloc, rules, limits, known, places, s, u.table, found)
        }
        Err(fault) => Ok(Some(unmatched(s, u.table, fault)?)),
    }
}
