// What a table calls for.

ghost use Rattle.std.specs.Prelude.{◌≡◌, IfOk, IfErr};
ghost use Rattle.spv_term.specs.Arena.{Arena};
ghost use Rattle.spv_term.specs.declared.nodes.Condition as coded;
ghost use Rattle.spv_table.specs.Kept.{PairsIn};
ghost use Rattle.spv_rules.specs.RuleSets.{rules_in};
ghost use Rattle.spv_rules.specs.matching.Views.{IsMatchFault};
ghost use Rattle.spv_verdicts.specs.answers.Views.{pairs_in};
ghost use Rattle.spv_rounds.specs.Rounds.{matched};
ghost use Rattle.spv_rounds.specs.knowing.Known.{IsSettled};
ghost use Rattle.spv_rounds.specs.telling.Told.{settled_question, settled_members};
ghost use Rattle.spv_rounds.specs.judging.Judged.{HasSettled, Calls};

use crate::calling::{find, fresh};
use crate::knowing::Settled;
use spv_rules::Rules;
use spv_rules::matching::{MatchFault, law_found};
use spv_table::Table;
use spv_verdicts::answers::Instance;
use std::alloc::Global;

/// The instances that a table calls for that are no members of the rounds; or the first term whose value is too wide.
pub(crate) fn calls(
    alloc: Global,
    rules: &Rules,
    s: &Settled,
    table: &Table,
) -> Result<Vec<Instance>, MatchFault>
    requires settled { HasSettled s.now }
    requires pairs { PairsIn s.now.terms table.now.values }
    ensures called { IfOk result (λ members. (a : Arena) (c : coded.Condition) → IsSettled (rules_in rules.now) a c s.now
        → Calls (rules_in rules.now) s.now table.now members.items) }
    ensures wide { IfErr result (λ f. (a : Arena) (c : coded.Condition) → IsSettled (rules_in rules.now) a c s.now
        → IsMatchFault s.now.terms (matched (settled_question (rules_in rules.now) s.now) (settled_members s.now) (pairs_in s.now.terms table.now.values)) f) }
{
    law_found();
    s.terms.law_arena();
    let found = find(alloc, rules, s, table)?;
    match fresh(alloc, s.rounds.as_slice(), found.as_slice()) {
        Ok(members) => Ok(members),
        Err(_) => Err(MatchFault::Memory),
    }
}
