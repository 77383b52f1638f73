// What to split on, where the table of both sides does not show the condition false though all formulas are decided.

ghost use Rattle.std.specs.Prelude.{◌≡◌, ◌<◌, length, IfOk, IfSome};
ghost use Rattle.spv_term.specs.Arena.{AllBelow};
ghost use Rattle.spv_table.specs.Kept.{PairsIn};
ghost use Rattle.spv_decisions.specs.literal_lookup.Facts.{AreThere};
ghost use Rattle.spv_decisions.specs.heuristic.Guiding.{MayBeSplit};

use crate::heuristic::splitting::split_at;
use spv_assignments::kleene::value_at;
use spv_assignments::partial_assignment::Known;
use spv_proof_steps::sides;
use spv_table::{Table, ValueFault};
use spv_term::{TermId, Terms};
use std::alloc::{AllocError, Global};

// Whether a term is known to be false and holds in a table.
fn is_shown(
    alloc: Global,
    terms: &Terms,
    values: &[Option<bool>],
    table: &Table,
    t: TermId,
) -> Result<bool, AllocError>
    requires t { t.0 < length terms.now.nodes }
    requires table { PairsIn terms.now table.now.values }
{
    if value_at(values, t) != Some(false) {
        return Ok(false);
    }
    match table.holds(alloc, terms, t) {
        Ok(truth) => Ok(truth),
        Err(ValueFault::Wide(_)) => Ok(false),
        Err(ValueFault::Memory) => Err(AllocError),
    }
}

/// An equation that is known to be false, of whose sides no order is known, and which holds in a table.
pub fn shown_false(
    alloc: Global,
    terms: &Terms,
    atoms: &[TermId],
    values: &[Option<bool>],
    known: &[Known],
    table: &Table,
) -> Result<Option<TermId>, AllocError>
    requires atoms { AllBelow (length terms.now.nodes) atoms.now }
    requires known { AreThere terms.now known.now }
    requires table { PairsIn terms.now table.now.values }
    ensures { IfOk result (λ o. IfSome o (MayBeSplit terms.now atoms.now values.now known.now)) }
{
    for place in 0..atoms.len() {
        if is_shown(alloc, terms, values, table, atoms[place])? {
            if let Some(t) = split_at(terms, atoms, values, known, place) {
                return Ok(Some(t));
            }
        }
    }
    Ok(None)
}

// Whether these two are arguments at one place of two terms, or the other way round.
fn are_beside(left: &[TermId], right: &[TermId], x: TermId, y: TermId) -> bool {
    for (t, u) in left.iter().zip(right.iter()) {
        if (*t == x && *u == y) || (*t == y && *u == x) {
            return true;
        }
    }
    false
}

// Whether a term is an equation of arguments at one place of two terms.
fn equates(terms: &Terms, left: &[TermId], right: &[TermId], t: TermId) -> bool
    requires { t.0 < length terms.now.nodes }
{
    match sides(terms, t) {
        Some((x, y)) => are_beside(left, right, x, y),
        None => false,
    }
}

/// An equation of two arguments of these terms that may be split on.
pub fn apart_by(
    terms: &Terms,
    atoms: &[TermId],
    values: &[Option<bool>],
    known: &[Known],
    t: TermId,
    u: TermId,
) -> Option<TermId>
    requires atoms { AllBelow (length terms.now.nodes) atoms.now }
    requires known { AreThere terms.now known.now }
    requires t { t.0 < length terms.now.nodes }
    requires u { u.0 < length terms.now.nodes }
    ensures { IfSome result (MayBeSplit terms.now atoms.now values.now known.now) }
{
    let left = terms.node(t).args.as_slice();
    let right = terms.node(u).args.as_slice();
    for place in 0..atoms.len() {
        if equates(terms, left, right, atoms[place]) {
            if let Some(found) = split_at(terms, atoms, values, known, place) {
                return Some(found);
            }
        }
    }
    None
}
