// A condition that is shown false by a table near to one of before.

ghost use Rattle.std.specs.Prelude.{◌≡◌, ◌<◌, ◌++◌, ◌∷◌, [], map, length, IfOk, IfSome, OnOk};
ghost use Rattle.spv_term.specs.Arena.{AllBelow, tree};
ghost use Rattle.spv_atoms.specs.Order.{passing};
ghost use Rattle.spv_models.specs.leaf_models.Subterms.{is_listed};
ghost use Rattle.spv_table.specs.Kept.{PairsIn};
ghost use Rattle.spv_branch_theory.specs.model_construction.Numbers.{with_value_if};
ghost use Rattle.spv_search.specs.Finding.{IsTableFor, term_of};
ghost use Rattle.spv_fact_search.specs.Guessing.{IsTrialOf, IsUnprovedBy};

use crate::enlarging::{Enlarged, used_terms};
use crate::guessing::Guess;
use crate::numbers::Numbers;
use spv_frac::Frac;
use spv_logic::list::List;
use spv_search_terms::subterms::listed;
use spv_table::Table;
use spv_term::{Condition, TermId, Terms};
use spv_verdicts::answers::Unproved;
use spv_verdicts::candidate_models::{Tried, try_table};
use std::alloc::{AllocError, Global};

// One term more, with its number.
fn push_value(values: &mut Vec<(TermId, Frac)>, t: TermId, number: Frac) -> Result<(), AllocError>
    ensures { OnOk result (values.new.items ≡ values.old.items ++ (t, number) ∷ []) }
{
    values.push((t, number))?;
    Ok(())
}

// One term more, with its number, if it is flagged.
fn push_if(
    values: &mut Vec<(TermId, Frac)>,
    t: TermId,
    flag: bool,
    number: Frac,
) -> Result<(), AllocError>
    ensures { OnOk result (values.new.items ≡ with_value_if flag values.old.items t number) }
{
    if flag {
        push_value(values, t, number)
    } else {
        Ok(())
    }
}

// The table of a guess, for those of these terms that are flagged.
fn table_by(
    alloc: Global,
    terms: &Terms,
    guess: &Guess,
    ids: &[TermId],
    flags: &[bool],
) -> Result<Table, AllocError>
    requires in_range { AllBelow (length terms.now.nodes) ids.now }
    requires flags { flags.now ≡ map (λ t. is_listed (tree terms.now t)) ids.now }
    ensures within { IfOk result (λ table. PairsIn terms.now table.values) }
    ensures lists { IfOk result (λ table. map (term_of terms.now) table.values ≡ passing is_listed (map (tree terms.now) ids.now)) }
{
    let _ = terms;
    let mut values = Vec::new(alloc);
    for place in 0..ids.len() {
        let number = guess.at(ids[place]);
        push_if(&mut values, ids[place], flags[place], number)?;
    }
    Ok(Table {
        values: List::from_vec(values),
    })
}

// A table near to numbers of before, for the terms of a condition that it has to list.
fn table_near(
    alloc: Global,
    terms: &Terms,
    condition: &Condition,
    before: Numbers,
) -> Result<Table, AllocError>
    requires given { AllBelow (length terms.now.nodes) condition.now.given }
    requires goal { condition.now.goal.0 < length terms.now.nodes }
    ensures { IfOk result (IsTableFor terms.now condition.now) }
{
    let used = used_terms(alloc, terms, condition)?;
    let flags = listed(alloc, terms, &used)?;
    let ids = used.as_slice();
    let marks = flags.as_slice();
    let guess = Guess::new(alloc, terms, condition, before, ids, marks)?;
    table_by(alloc, terms, &guess, ids, marks)
}

// What a table shows of a condition, if it falsifies it.
fn shown_by(
    alloc: Global,
    terms: &Terms,
    condition: &Condition,
    table: Table,
) -> Result<Option<Unproved>, AllocError>
    requires given { AllBelow (length terms.now.nodes) condition.now.given }
    requires goal { condition.now.goal.0 < length terms.now.nodes }
    requires table { IsTableFor terms.now condition.now table }
    ensures { IfOk result (λ o. IfSome o (IsUnprovedBy terms.now condition.now)) }
{
    let tried = try_table(alloc, terms, condition, &table)?;
    match tried {
        Tried::Shown(branch) => Ok(Some(Unproved {
            branch,
            table,
            instances: List::new(alloc),
        })),
        _ => Ok(None),
    }
}

/// What comes of a table near to numbers of before.
#[derive(Drop)]
pub(crate) enum Trial {
    /// It shows the condition false.
    Shown(Unproved),
    /// These terms are of one head with others and of arguments that are worth the same, and have other numbers.
    Apart(Vec<TermId>),
    /// It does not.
    NotShown,
}

// What comes of a table, where these terms were apart before its numbers were spread.
fn tried_by(
    alloc: Global,
    terms: &Terms,
    condition: &Condition,
    table: Table,
    apart: Vec<TermId>,
) -> Result<Trial, AllocError>
    requires given { AllBelow (length terms.now.nodes) condition.now.given }
    requires goal { condition.now.goal.0 < length terms.now.nodes }
    requires table { IsTableFor terms.now condition.now table }
    ensures { IfOk result (IsTrialOf terms.now condition.now) }
{
    match shown_by(alloc, terms, condition, table)? {
        Some(found) => Ok(Trial::Shown(found)),
        None if apart.is_empty() => Ok(Trial::NotShown),
        None => Ok(Trial::Apart(apart)),
    }
}

/// What comes of a table near to numbers of before, where applications of one head are looked at first.
pub(crate) fn tried_near(
    alloc: Global,
    terms: &Terms,
    condition: &Condition,
    before: Numbers,
) -> Result<Trial, AllocError>
    requires given { AllBelow (length terms.now.nodes) condition.now.given }
    requires goal { condition.now.goal.0 < length terms.now.nodes }
    ensures { IfOk result (IsTrialOf terms.now condition.now) }
{
    let used = used_terms(alloc, terms, condition)?;
    let flags = listed(alloc, terms, &used)?;
    let ids = used.as_slice();
    let marks = flags.as_slice();
    let mut guess = Guess::new(alloc, terms, condition, before, ids, marks)?;
    let apart = guess.apart(alloc, terms, ids, marks)?;
    if !apart.is_empty() {
        guess.spread(terms, ids, marks);
        let still = guess.apart(alloc, terms, ids, marks)?;
        if !still.is_empty() {
            return Ok(Trial::Apart(apart));
        }
    }
    let table = table_by(alloc, terms, &guess, ids, marks)?;
    tried_by(alloc, terms, condition, table, apart)
}

/// What a table near to numbers of before shows of a condition, if it falsifies it.
pub(crate) fn shown_near(
    alloc: Global,
    enlarged: &Enlarged,
    before: Numbers,
) -> Result<Option<Unproved>, AllocError>
    requires given { AllBelow (length enlarged.now.terms.nodes) enlarged.now.condition.given }
    requires goal { enlarged.now.condition.goal.0 < length enlarged.now.terms.nodes }
    ensures { IfOk result (λ o. IfSome o (IsUnprovedBy enlarged.now.terms enlarged.now.condition)) }
{
    let table = table_near(alloc, &enlarged.terms, &enlarged.condition, before)?;
    shown_by(alloc, &enlarged.terms, &enlarged.condition, table)
}
