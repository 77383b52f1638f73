// The number of a term in the table.

ghost use Rattle.std.specs.Prelude.{◌≡◌, ◌<◌, length, pos, true, IfOk};
ghost use Rattle.spv_whole.specs.Fraction.{whole};
ghost use Rattle.spv_frac.specs.Range.{fits};
ghost use Rattle.spv_term.specs.Arena.{tree};
ghost use Rattle.spv_atoms.specs.Order.{SameMembers};
ghost use Rattle.spv_tableau_rules.specs.tableaux.Forms.{part_ids};
ghost use Rattle.spv_congruence.specs.Graph.{are_same};
ghost use Rattle.spv_congruence.specs.Keep.{IsNode};
ghost use Rattle.spv_simplex.specs.State.{value_of};
ghost use Rattle.spv_table.specs.Values as spec;
ghost use Rattle.spv_share.specs.States.{IsOpen};
ghost use Rattle.spv_branch_theory.specs.model_construction.Numbers.{number_of};

use spv_frac::{Frac, law_frac};
use spv_search_terms::head_index::{is_number, is_truth};
use spv_search_terms::subterms::IdSet;
use spv_share::Both;
use spv_term::{TermId, Terms};
use std::alloc::{AllocError, Global};

/// The terms that are columns of the tableau, to look them up.
pub(crate) fn columns(alloc: Global, both: &Both) -> Result<IdSet, AllocError>
    ensures { IfOk result (λ set. SameMembers set (part_ids both.now.standing.tableau.forms)) }
{
    let mut set = IdSet::new(alloc);
    for t in both.standing.tableau.parts() {
        set.add(*t)?;
    }
    Ok(set)
}

// The value of a whole number at the point; 0, if it is no column.
fn value(both: &Both, columns: &IdSet, t: TermId) -> Frac
    requires open { IsOpen both.now }
    requires columns { SameMembers columns.now (part_ids both.now.standing.tableau.forms) }
    ensures { result ≡ (value_of both.now.standing.tableau t).fraction }
{
    if columns.has(t) {
        let value = both.point(t);
        law_frac(&value);
        value
    } else {
        Frac::whole(0)
    }
}

// Whether a term was joined with TRUE.
fn is_true(both: &Both, t: TermId) -> bool
    requires t { IsNode both.now.trail.graph.nodes t }
    requires truth { IsNode both.now.trail.graph.nodes both.now.trail.truth }
    ensures { result ≡ are_same both.now.trail.graph t both.now.trail.truth }
{
    both.trail.graph.same(t, both.trail.truth)
}

fn truth_value(truth: bool) -> Frac
    ensures { result ≡ spec.truth_value truth }
{
    if truth {
        Frac::whole(1)
    } else {
        Frac::whole(0)
    }
}

// A place as a number of 128 bits.
fn wide(place: usize) -> i128
    ensures value { result ≡ pos place }
    ensures fits { fits result ≡ true }
{
    place as i128
}

// A whole number as a fraction.
fn numeral(number: i128) -> Frac
    requires { fits number ≡ true }
    ensures { result ≡ whole number }
{
    Frac {
        num: number,
        den: 1,
    }
}

/// The number of a term, the first of whose class stands at a place.
pub(crate) fn number(terms: &Terms, both: &Both, columns: &IdSet, t: TermId, first: usize) -> Frac
    requires open { IsOpen both.now }
    requires columns { SameMembers columns.now (part_ids both.now.standing.tableau.forms) }
    requires t { t.0 < length terms.now.nodes }
    requires node { IsNode both.now.trail.graph.nodes t }
    requires truth { IsNode both.now.trail.graph.nodes both.now.trail.truth }
    ensures { result ≡ number_of terms.now both.now t first }
{
    if is_number(terms, t) {
        return value(both, columns, t);
    }
    if is_truth(terms, t) {
        return truth_value(is_true(both, t));
    }
    numeral(wide(first))
}
