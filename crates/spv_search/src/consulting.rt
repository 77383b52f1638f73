// What a search does next with a path at rest: the table of both sides is tried, or an atom is advised.

ghost use Rattle.std.specs.Prelude.{◌<◌, length, IfOk};
ghost use Rattle.spv_term.specs.Arena.{AllBelow};
ghost use Rattle.spv_table.specs.Kept.{PairsIn};
ghost use Rattle.spv_decisions.specs.literal_lookup.Facts.{AreThere};
ghost use Rattle.spv_branch_theory.specs.saturation.States.{AreListed};
ghost use Rattle.spv_decisions.specs.heuristic.Guiding.{IsHeuristic};
ghost use Rattle.spv_verdicts.specs.candidate_models.Trying.{IsTried, ListsSubterms};
ghost use Rattle.spv_search.specs.Finding.{HasOpenState, IsNext, IsTableFor, MayBeSplitIf};

use spv_branch_theory::model_construction::full_table;
use spv_branch_theory::saturation::law_full_state;
use spv_decisions::heuristic::{Advice, Heuristic, apart_by, shown_false};
use spv_logic::list::List;
use spv_share::Both;
use spv_table::Table;
use spv_term::{Condition, TermId, Terms};
use spv_trail::backtracking::BranchTrail;
use spv_verdicts::answers::Unproved;
use spv_verdicts::candidate_models::{Tried, try_table};
use std::alloc::{AllocError, Global};

/// What a search does next with a path at rest.
#[derive(Debug, Drop)]
pub(crate) enum Next {
    /// The table of both sides falsifies the condition.
    Found(Unproved),
    /// It splits on this atom.
    Split(TermId),
    /// Nothing is advised.
    Nothing,
}

// The table of both sides.
fn table_of(
    alloc: Global,
    terms: &Terms,
    condition: &Condition,
    subterms: &[TermId],
    listed: &[bool],
    both: &Both,
) -> Result<Table, AllocError>
    requires listed { AreListed terms.now condition.now subterms.now listed.now }
    requires state { HasOpenState terms.now condition.now both.now }
    ensures { IfOk result (IsTableFor terms.now condition.now) }
{
    law_full_state();
    let _ = condition;
    full_table(alloc, terms, both, subterms, listed)
}

// To split on an atom, if one was found.
fn split_on(terms: &Terms, atoms: &[TermId], path: &BranchTrail, found: Option<TermId>) -> Next
    requires { MayBeSplitIf terms.now atoms.now path.now found }
    ensures { (c : Condition) → IsNext terms.now c atoms.now path.now result }
{
    let _ = terms;
    let _ = atoms;
    let _ = path;
    match found {
        Some(t) => Next::Split(t),
        None => Next::Nothing,
    }
}

// To split on an equation that a table makes true, but which is known to be false.
fn mend(
    alloc: Global,
    terms: &Terms,
    atoms: &[TermId],
    path: &BranchTrail,
    table: &Table,
) -> Result<Next, AllocError>
    requires atoms { AllBelow (length terms.now.nodes) atoms.now }
    requires known { AreThere terms.now path.now.known.items }
    requires table { PairsIn terms.now table.now.values }
    ensures { IfOk result (λ n. (c : Condition) → IsNext terms.now c atoms.now path.now n) }
{
    let values = path.lists.all.as_slice();
    let known = path.known.as_slice();
    let found = shown_false(alloc, terms, atoms, values, known, table)?;
    Ok(split_on(terms, atoms, path, found))
}

// To split on an equation of two arguments of these terms.
fn mend_apart(terms: &Terms, atoms: &[TermId], path: &BranchTrail, t: TermId, u: TermId) -> Next
    requires atoms { AllBelow (length terms.now.nodes) atoms.now }
    requires known { AreThere terms.now path.now.known.items }
    requires t { t.0 < length terms.now.nodes }
    requires u { u.0 < length terms.now.nodes }
    ensures { (c : Condition) → IsNext terms.now c atoms.now path.now result }
{
    let values = path.lists.all.as_slice();
    let known = path.known.as_slice();
    let found = apart_by(terms, atoms, values, known, t, u);
    split_on(terms, atoms, path, found)
}

// The table of both sides is tried.
fn probe(
    alloc: Global,
    terms: &Terms,
    condition: &Condition,
    subterms: &[TermId],
    listed: &[bool],
    atoms: &[TermId],
    path: &BranchTrail,
) -> Result<Next, AllocError>
    requires given { AllBelow (length terms.now.nodes) condition.now.given }
    requires goal { condition.now.goal.0 < length terms.now.nodes }
    requires listed { AreListed terms.now condition.now subterms.now listed.now }
    requires atoms { AllBelow (length terms.now.nodes) atoms.now }
    requires known { AreThere terms.now path.now.known.items }
    requires state { HasOpenState terms.now condition.now path.now.both }
    ensures { IfOk result (IsNext terms.now condition.now atoms.now path.now) }
{
    let table = table_of(alloc, terms, condition, subterms, listed, &path.both)?;
    let tried = try_table(alloc, terms, condition, &table)?;
    match tried {
        Tried::Shown(branch) => Ok(Next::Found(Unproved {
            branch,
            table,
            instances: List::new(alloc),
        })),
        Tried::Apart(t, u) => Ok(mend_apart(terms, atoms, path, t, u)),
        Tried::NotShown => mend(alloc, terms, atoms, path, &table),
    }
}

/// What a search does next with a path at rest: the table of both sides is tried once all formulas are decided by the values of their atoms.
pub(crate) fn consult(
    alloc: Global,
    terms: &Terms,
    condition: &Condition,
    subterms: &[TermId],
    listed: &[bool],
    atoms: &[TermId],
    heuristic: &Heuristic,
    path: &BranchTrail,
) -> Result<Next, AllocError>
    requires given { AllBelow (length terms.now.nodes) condition.now.given }
    requires goal { condition.now.goal.0 < length terms.now.nodes }
    requires listed { AreListed terms.now condition.now subterms.now listed.now }
    requires heuristic { IsHeuristic terms.now heuristic.now }
    requires atoms { AllBelow (length terms.now.nodes) atoms.now }
    requires known { AreThere terms.now path.now.known.items }
    requires state { HasOpenState terms.now condition.now path.now.both }
    ensures { IfOk result (IsNext terms.now condition.now atoms.now path.now) }
{
    let values = path.lists.all.as_slice();
    let known = path.known.as_slice();
    let advice = heuristic.advise(alloc, terms, atoms, values, known)?;
    match advice {
        Advice::Split(t) => Ok(Next::Split(t)),
        Advice::Decided => probe(alloc, terms, condition, subterms, listed, atoms, path),
        Advice::Nothing => Ok(Next::Nothing),
    }
}
