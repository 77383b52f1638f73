// What the arguments of the terms of a table are worth in it.

ghost use Rattle.std.specs.Prelude.{◌≡◌, ◌<◌, true, length, map, Ok, IfOk, IfSome};
ghost use Rattle.spv_term.specs.Arena.{AllBelow, tree};
ghost use Rattle.spv_table.specs.Evaluating.{AreEvaluated};
ghost use Rattle.spv_table.specs.Kept.{PairsIn, listed_over};
ghost use Rattle.spv_table.specs.Values.{value};
ghost use Rattle.spv_models.specs.leaf_models.Subterms.{arguments};
ghost use Rattle.spv_verdicts.specs.candidate_models.Trying.{AreKeys, AreWorth, IsWorthOfOne};

use spv_frac::Frac;
use spv_logic::list::List;
use spv_table::{Evaluated, Table};
use spv_term::{TermId, Terms};
use std::alloc::{AllocError, Global};

// What a term is worth that was evaluated, where no operation is too wide.
fn worth(terms: &Terms, table: &Table, evaluated: &Evaluated, t: TermId) -> Option<Frac>
    requires { AreEvaluated terms.now (listed_over terms.now table.now.values) evaluated.now }
    ensures { IfSome result (λ x. value (listed_over terms.now table.now.values) (tree terms.now t) ≡ Ok x) }
{
    let _ = terms;
    let _ = table;
    match evaluated.value(t) {
        Some(Ok(x)) => Some(x),
        _ => None,
    }
}

// Puts what a term is worth behind other numbers, and answers whether it could.
fn push_worth(
    terms: &Terms,
    table: &Table,
    evaluated: &Evaluated,
    numbers: &mut List<Frac>,
    t: TermId,
) -> Result<bool, AllocError>
    requires { AreEvaluated terms.now (listed_over terms.now table.now.values) evaluated.now }
    ensures { IfOk result (λ b. b ≡ true → IsWorthOfOne (listed_over terms.now table.now.values) (tree terms.now t) numbers.old numbers.new) }
{
    match worth(terms, table, evaluated, t) {
        Some(x) => {
            numbers.push(x)?;
            Ok(true)
        }
        None => Ok(false),
    }
}

// What these terms are worth, where no operation is too wide.
fn worths(
    alloc: Global,
    terms: &Terms,
    table: &Table,
    evaluated: &Evaluated,
    ids: &[TermId],
) -> Result<Option<List<Frac>>, AllocError>
    requires { AreEvaluated terms.now (listed_over terms.now table.now.values) evaluated.now }
    ensures { IfOk result (λ o. IfSome o (AreWorth (listed_over terms.now table.now.values) (map (tree terms.now) ids.now))) }
{
    let mut numbers = List::new(alloc);
    for t in ids {
        let pushed = push_worth(terms, table, evaluated, &mut numbers, *t)?;
        if !pushed {
            return Ok(None);
        }
    }
    Ok(Some(numbers))
}

// What the arguments of a term are worth, where no operation is too wide.
fn key_of(
    alloc: Global,
    terms: &Terms,
    table: &Table,
    evaluated: &Evaluated,
    t: TermId,
) -> Result<Option<List<Frac>>, AllocError>
    requires evaluated { AreEvaluated terms.now (listed_over terms.now table.now.values) evaluated.now }
    requires t { t.0 < length terms.now.nodes }
    ensures { IfOk result (λ o. IfSome o (AreWorth (listed_over terms.now table.now.values) (arguments (tree terms.now t)))) }
{
    terms.law_arena();
    let node = terms.node(t);
    worths(alloc, terms, table, evaluated, node.args.as_slice())
}

// Beside each of these entries, which are those of a table, what the arguments of its term are worth, where no operation is too wide.
fn keys_of(
    alloc: Global,
    terms: &Terms,
    table: &Table,
    evaluated: &Evaluated,
    pairs: &[(TermId, Frac)],
) -> Result<Option<Vec<List<Frac>>>, AllocError>
    requires values { PairsIn terms.now table.now.values }
    requires pairs { pairs.now ≡ table.now.values }
    requires evaluated { AreEvaluated terms.now (listed_over terms.now table.now.values) evaluated.now }
    ensures { IfOk result (λ o. IfSome o (λ keys. AreKeys terms.now (listed_over terms.now table.now.values) pairs.now keys.items)) }
{
    let mut keys = Vec::new(alloc);
    for place in 0..pairs.len() {
        let found = key_of(alloc, terms, table, evaluated, pairs[place].0)?;
        match found {
            Some(key) => keys.push(key)?,
            None => return Ok(None),
        }
    }
    Ok(Some(keys))
}

// The arguments of the terms of entries, one after the other.
fn arguments(
    alloc: Global,
    terms: &Terms,
    pairs: &[(TermId, Frac)],
) -> Result<Vec<TermId>, AllocError>
    requires { PairsIn terms.now pairs.now }
    ensures { IfOk result (λ ids. AllBelow (length terms.now.nodes) ids.items) }
{
    terms.law_arena();
    let mut ids = Vec::new(alloc);
    for place in 0..pairs.len() {
        let node = terms.node(pairs[place].0);
        ids.extend_from_slice(node.args.as_slice())?;
    }
    Ok(ids)
}

/// Beside each entry of a table what the arguments of its term are worth, where no operation is too wide.
pub(crate) fn keys(
    alloc: Global,
    terms: &Terms,
    table: &Table,
) -> Result<Option<Vec<List<Frac>>>, AllocError>
    requires values { PairsIn terms.now table.now.values }
    ensures { IfOk result (λ o. IfSome o (λ keys. AreKeys terms.now (listed_over terms.now table.now.values) table.now.values keys.items)) }
{
    let pairs = table.values.as_slice();
    let ids = arguments(alloc, terms, pairs)?;
    let evaluated = table.evaluated(alloc, terms, ids.as_slice())?;
    keys_of(alloc, terms, table, &evaluated, pairs)
}
