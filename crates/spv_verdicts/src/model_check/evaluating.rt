// The formulas of a condition in a table.

ghost use Rattle.std.specs.Prelude.{◌≡◌, ◌<◌, ◌++◌, [], ◌∷◌, map, length, true, false, Ok, IfOk, IfErr, IfSome, IfNone, OnOk};
ghost use Rattle.spv_term.specs.Arena.{AllBelow, tree};
ghost use Rattle.spv_atoms.specs.Atoms.{is_truth};
ghost use Rattle.spv_proof_rules.specs.Stand.{question};
ghost use Rattle.spv_table.specs.Values as spec;
ghost use Rattle.spv_table.specs.Kept.{PairsIn, listed_over};
ghost use Rattle.spv_verdicts.specs.Verdicts.{condition_atoms, with_all_atoms};
ghost use Rattle.spv_verdicts.specs.model_check.Surviving.{AllHold, AreTruths, IsBranch, IsFaultAmong, IsFaultFor, IsFaultOf, IsNotShown, IsShown, ShowsFalse, SomeFails};

use crate::model_check::faults::SurvivingFault;
use spv_atoms::atoms;
use spv_logic::list::List;
use spv_table::{Table, ValueFault};
use spv_term::{Condition, TermId, Terms};
use std::alloc::{AllocError, Global};

// Whether a formula holds.
#[tactic(auto, using(crate::proofs::model_check::ShownLemmas::value_stops))]
fn holds(alloc: Global, terms: &Terms, table: &Table, f: TermId) -> Result<bool, SurvivingFault>
    requires values { PairsIn terms.now table.now.values }
    requires f { f.0 < length terms.now.nodes }
    ensures value { IfOk result
        (λ b. spec.holds (listed_over terms.now table.now.values) (tree terms.now f) ≡ Ok b) }
    ensures fault { IfErr result (IsFaultOf terms.now (listed_over terms.now table.now.values) f) }
{
    match table.holds(alloc, terms, f) {
        Ok(b) => Ok(b),
        Err(ValueFault::Wide(wide)) => Err(SurvivingFault::Wide(f, wide)),
        Err(ValueFault::Memory) => Err(SurvivingFault::Memory),
    }
}

// Whether each of these formulas holds.
fn all_hold(
    alloc: Global,
    terms: &Terms,
    table: &Table,
    fs: &[TermId],
) -> Result<bool, SurvivingFault>
    requires values { PairsIn terms.now table.now.values }
    requires fs { AllBelow (length terms.now.nodes) fs.now }
    ensures hold { IfOk result (λ b. b ≡ true → AllHold terms.now (listed_over terms.now table.now.values) fs.now) }
    ensures fail { IfOk result (λ b. b ≡ false → SomeFails terms.now (listed_over terms.now table.now.values) fs.now) }
    ensures fault { IfErr result (IsFaultAmong terms.now (listed_over terms.now table.now.values) fs.now) }
{
    for f in fs {
        let truth = holds(alloc, terms, table, *f)?;
        if !truth {
            return Ok(false);
        }
    }
    Ok(true)
}

// Adds the atoms of these formulas that are not there yet.
fn add_atoms(terms: &Terms, fs: &[TermId], out: &mut Vec<TermId>) -> Result<(), AllocError>
    requires fs { AllBelow (length terms.now.nodes) fs.now }
    requires out { AllBelow (length terms.now.nodes) out.old.items }
    ensures atoms { OnOk result (map (tree terms.now) out.new.items
        ≡ with_all_atoms (is_truth terms.now.shapes terms.now.decls) (map (tree terms.now) out.old.items) (map (tree terms.now) fs.now)) }
    ensures in_range { OnOk result (AllBelow (length terms.now.nodes) out.new.items) }
{
    for f in fs {
        atoms(terms, *f, out)?;
    }
    Ok(())
}

// The atoms of a condition.
pub(crate) fn atoms_of(
    alloc: Global,
    terms: &Terms,
    condition: &Condition,
) -> Result<Vec<TermId>, AllocError>
    requires given { AllBelow (length terms.now.nodes) condition.now.given }
    requires goal { condition.now.goal.0 < length terms.now.nodes }
    ensures atoms { IfOk result
        (λ found. map (tree terms.now) found.items ≡ condition_atoms (question terms.now condition.now)) }
    ensures in_range { IfOk result (λ found. AllBelow (length terms.now.nodes) found.items) }
{
    let mut found = Vec::new(alloc);
    add_atoms(terms, condition.given.as_slice(), &mut found)?;
    atoms(terms, condition.goal, &mut found)?;
    Ok(found)
}

// One atom more, with its truth.
fn push_case(branch: &mut Vec<(TermId, bool)>, t: TermId, truth: bool) -> Result<(), AllocError>
    ensures { OnOk result (branch.new.items ≡ branch.old.items ++ (t, truth) ∷ []) }
{
    branch.push((t, truth))?;
    Ok(())
}

// Each of these formulas with its truth.
fn truths(
    alloc: Global,
    terms: &Terms,
    table: &Table,
    fs: &[TermId],
) -> Result<Vec<(TermId, bool)>, SurvivingFault>
    requires values { PairsIn terms.now table.now.values }
    requires fs { AllBelow (length terms.now.nodes) fs.now }
    ensures truths { IfOk result
        (λ branch. AreTruths terms.now (listed_over terms.now table.now.values) fs.now branch.items) }
    ensures fault { IfErr result (IsFaultAmong terms.now (listed_over terms.now table.now.values) fs.now) }
{
    let mut branch = Vec::new(alloc);
    for f in fs {
        let truth = holds(alloc, terms, table, *f)?;
        push_case(&mut branch, *f, truth)?;
    }
    Ok(branch)
}

// Each atom of a condition, with its truth.
fn branch_of(
    alloc: Global,
    terms: &Terms,
    condition: &Condition,
    table: &Table,
) -> Result<List<(TermId, bool)>, SurvivingFault>
    requires given { AllBelow (length terms.now.nodes) condition.now.given }
    requires goal { condition.now.goal.0 < length terms.now.nodes }
    requires values { PairsIn terms.now table.now.values }
    ensures branch { IfOk result
        (λ branch. IsBranch terms.now condition.now (listed_over terms.now table.now.values) branch) }
    ensures fault { IfErr result (IsFaultFor terms.now condition.now (listed_over terms.now table.now.values)) }
{
    terms.law_arena();
    let found = atoms_of(alloc, terms, condition)?;
    let branch = truths(alloc, terms, table, found.as_slice())?;
    Ok(List::from_vec(branch))
}

// Whether each hypothesis holds and the goal does not.
fn is_shown(
    alloc: Global,
    terms: &Terms,
    condition: &Condition,
    table: &Table,
) -> Result<bool, SurvivingFault>
    requires given { AllBelow (length terms.now.nodes) condition.now.given }
    requires goal { condition.now.goal.0 < length terms.now.nodes }
    requires values { PairsIn terms.now table.now.values }
    ensures shown { IfOk result (λ b. b ≡ true → IsShown terms.now condition.now (listed_over terms.now table.now.values)) }
    ensures not_shown { IfOk result (λ b. b ≡ false → IsNotShown terms.now condition.now (listed_over terms.now table.now.values)) }
    ensures fault { IfErr result (IsFaultFor terms.now condition.now (listed_over terms.now table.now.values)) }
{
    terms.law_arena();
    if !all_hold(alloc, terms, table, condition.given.as_slice())? {
        return Ok(false);
    }
    let goal = holds(alloc, terms, table, condition.goal)?;
    Ok(!goal)
}

/// Where each hypothesis of a condition is true in a table and its goal is false, each atom of the condition with its truth there;
/// `None` where a hypothesis is false or the goal is true. `Wide` names a formula or an atom of the condition, and the operation that its evaluation meets.
pub fn surviving(
    alloc: Global,
    terms: &Terms,
    condition: &Condition,
    table: &Table,
) -> Result<Option<List<(TermId, bool)>>, SurvivingFault>
    requires given { AllBelow (length terms.now.nodes) condition.now.given }
    requires goal { condition.now.goal.0 < length terms.now.nodes }
    requires values { PairsIn terms.now table.now.values }
    ensures shown { IfOk result (λ o. IfSome o (ShowsFalse terms.now condition.now (listed_over terms.now table.now.values))) }
    ensures not_shown { IfOk result (λ o. IfNone o (IsNotShown terms.now condition.now (listed_over terms.now table.now.values))) }
    ensures fault { IfErr result (IsFaultFor terms.now condition.now (listed_over terms.now table.now.values)) }
{
    if !is_shown(alloc, terms, condition, table)? {
        return Ok(None);
    }
    let branch = branch_of(alloc, terms, condition, table)?;
    Ok(Some(branch))
}
