// Fresh variables in the place of what a loop changes.

ghost use Rattle.std.specs.Prelude.{◌≡◌, ◌++◌, [], ◌∷◌, IfOk, OnOk};
ghost use Rattle.spv_term.specs.Arena.{Extends};
ghost use Rattle.spv_term.specs.substitution.Images.{ArePairs};
ghost use Rattle.spv_assign.specs.supply.Numbers.{AreThere, supply_of};
ghost use Rattle.spv_assign.specs.Conditions.{AreIn, all_terms_in, conditions_of, pairs_of};
ghost use Rattle.spv_meaning.specs.Before as before;
ghost use Rattle.spv_assign.specs.creation_trace.Events.{Answers};
ghost use Rattle.spv_assign.specs.creation_trace.StatementEvents.{pair_terms, several};
ghost use Rattle.spv_flow_parts.specs.Standing.{AllRenamed};
ghost use Rattle.spv_flow_parts.specs.Walks.{AreRenamed, ComesTo};

use spv_assign::Pending;
use spv_assign::creation_trace::GenFault;
use spv_assign::limited_steps::{fresh_pair, replaced};
use spv_assign::supply::Supply;
use spv_logic::Head;
use spv_term::{TermId, Terms};
use std::alloc::{AllocError, Global};

fn push(pairs: &mut Vec<(TermId, TermId)>, pair: (TermId, TermId)) -> Result<(), AllocError>
    ensures { OnOk result (pairs.new.items ≡ pairs.old.items ++ pair ∷ []) }
{
    pairs.push(pair)?;
    Ok(())
}

/// Each of these variables and classes with a fresh one in its place, in order.
pub fn renamed(
    alloc: Global,
    terms: &mut Terms,
    supply: &mut Supply,
    heads: &[Head],
) -> Result<Vec<(TermId, TermId)>, GenFault>
    requires heads { AllRenamed terms.old.shapes heads.now }
    requires there { AreThere terms.old (supply_of supply.old) }
    ensures pairs { IfOk result (λ ps. AreRenamed terms.new (supply_of supply.new) ps.items (before.renamed heads.now (supply_of supply.old))) }
    ensures grows { Extends terms.old terms.new }
    ensures walk { Answers result (several (pair_terms (before.renamed heads.now (supply_of supply.old)).pairs)) terms.old terms.new }
{
    let mut pairs = Vec::new(alloc);
    for head in heads {
        let pair = fresh_pair(terms, supply, *head)?;
        push(&mut pairs, pair)?;
    }
    Ok(pairs)
}

/// Conditions with the second terms of pairs in the place of the first ones, all at once.
pub fn replaced_in(
    alloc: Global,
    terms: &mut Terms,
    pairs: &[(TermId, TermId)],
    rest: &Pending,
) -> Result<Pending, GenFault>
    requires rest { AreIn terms.old rest.now.items }
    requires pairs { ArePairs terms.old pairs.now }
    ensures { ComesTo result (before.replaced (pairs_of terms.old pairs.now) (conditions_of terms.old rest.now.items))
        (several (all_terms_in (before.replaced (pairs_of terms.old pairs.now) (conditions_of terms.old rest.now.items)))) terms.old terms.new }
{
    replaced(terms, alloc, pairs, rest)
}
