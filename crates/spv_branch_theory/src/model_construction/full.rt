// The table.

ghost use Rattle.std.specs.Prelude.{◌≡◌, ◌<◌, ◌++◌, [], ◌∷◌, length, true, IfOk, OnOk};
ghost use Rattle.spv_term.specs.Arena.{AllBelow};
ghost use Rattle.spv_atoms.specs.Order.{SameMembers};
ghost use Rattle.spv_tableau_rules.specs.tableaux.Forms.{part_ids};
ghost use Rattle.spv_congruence.specs.Keep.{IsNode};
ghost use Rattle.spv_share.specs.States.{IsOpen};
ghost use Rattle.spv_branch_theory.specs.model_construction.Firsts.{HasNodes};
ghost use Rattle.spv_branch_theory.specs.model_construction.Numbers.{number_of, with_value_if, listed_to, IsFullTable};

use crate::model_construction::firsts::firsts;
use crate::model_construction::numbers::{columns, number};
use spv_frac::Frac;
use spv_logic::list::List;
use spv_search_terms::subterms::IdSet;
use spv_share::Both;
use spv_table::Table;
use spv_term::{TermId, Terms};
use std::alloc::{AllocError, Global};

// One term more, with its number.
fn push_value(values: &mut Vec<(TermId, Frac)>, t: TermId, value: Frac) -> Result<(), AllocError>
    ensures { OnOk result (values.new.items ≡ values.old.items ++ (t, value) ∷ []) }
{
    values.push((t, value))?;
    Ok(())
}

// One term more, with its number, if it is flagged.
fn push_if(
    terms: &Terms,
    both: &Both,
    columns: &IdSet,
    values: &mut Vec<(TermId, Frac)>,
    t: TermId,
    flag: bool,
    first: usize,
) -> Result<(), AllocError>
    requires open { IsOpen both.now }
    requires columns { SameMembers columns.now (part_ids both.now.standing.tableau.forms) }
    requires t { t.0 < length terms.now.nodes }
    requires node { flag ≡ true → IsNode both.now.trail.graph.nodes t }
    requires truth { IsNode both.now.trail.graph.nodes both.now.trail.truth }
    ensures { OnOk result (values.new.items ≡ with_value_if flag values.old.items t (number_of terms.now both.now t first)) }
{
    if flag {
        let value = number(terms, both, columns, t, first);
        push_value(values, t, value)
    } else {
        Ok(())
    }
}

// Each of these terms that is flagged, with its number.
fn values(
    alloc: Global,
    terms: &Terms,
    both: &Both,
    ids: &[TermId],
    flags: &[bool],
    firsts: &[usize],
) -> Result<Vec<(TermId, Frac)>, AllocError>
    requires open { IsOpen both.now }
    requires in_range { AllBelow (length terms.now.nodes) ids.now }
    requires flags { length flags.now ≡ length ids.now }
    requires nodes { HasNodes both.now.trail.graph.nodes ids.now flags.now }
    requires truth { IsNode both.now.trail.graph.nodes both.now.trail.truth }
    requires firsts { length firsts.now ≡ length ids.now }
    ensures { IfOk result (λ values. values.items ≡ listed_to terms.now both.now ids.now flags.now firsts.now (length ids.now)) }
{
    let columns = columns(alloc, both)?;
    let mut values = Vec::new(alloc);
    for place in 0..ids.len() {
        push_if(
            terms,
            both,
            &columns,
            &mut values,
            ids[place],
            flags[place],
            firsts[place],
        )?;
    }
    Ok(values)
}

/// The table of both sides where they are open, for those of these terms that are flagged: a term of sort Int has its value at the
/// point, and 0 if it is no column; one of sort Bool 1 if it was joined with TRUE, else 0; each other one the first place at which a term
/// stands that is flagged and the same.
pub fn full_table(
    alloc: Global,
    terms: &Terms,
    both: &Both,
    ids: &[TermId],
    flags: &[bool],
) -> Result<Table, AllocError>
    requires open { IsOpen both.now }
    requires in_range { AllBelow (length terms.now.nodes) ids.now }
    requires flags { length flags.now ≡ length ids.now }
    requires nodes { HasNodes both.now.trail.graph.nodes ids.now flags.now }
    requires truth { IsNode both.now.trail.graph.nodes both.now.trail.truth }
    ensures { IfOk result (λ table. IsFullTable terms.now both.now ids.now flags.now table.values) }
{
    let places = firsts(alloc, &both.trail.graph, ids, flags)?;
    let values = values(alloc, terms, both, ids, flags, places.as_slice())?;
    Ok(Table {
        values: List::from_vec(values),
    })
}
