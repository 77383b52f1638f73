// Variables and numerals of triggers, and what they meet.

ghost use Rattle.std.specs.Prelude.{◌≡◌, ◌<◌, ◌∷◌, [], length, true, Ok, Some, None, OnOk, IfErr};
ghost use Rattle.spv_logic.specs.Terms.{sort_eq};
ghost use Rattle.spv_logic.specs.Fits.{on_sort};
ghost use Rattle.spv_logic.specs.Sorts as sorts;
ghost use Rattle.spv_term.specs.Arena.{tree};
ghost use Rattle.spv_frac.specs.Range.{fits};
ghost use Rattle.spv_rules.specs.matching.Matches as spec;
ghost use Rattle.spv_rules.specs.matching.Views.{setting_in, bindings_in, bound_id, AllBound, GoesOn, IsMeeting, IsMatchFault};

use crate::matching::bindings::{Bound, bound_to, put, put_copy, with_bound};
use crate::matching::faults::MatchFault;
use crate::matching::patterns::Meeting;
use crate::matching::values::{Setting, has_number, have_one_value};
use crate::sorts::{same_sort, variable_sort};
use spv_logic::Head;
use spv_logic::list::List;
use spv_term::{TermId, Terms};

// Whether a term has the sort of a variable.
fn has_sort_of(terms: &Terms, variable: Head, t: TermId) -> bool
    requires { t.0 < length terms.now.nodes }
    ensures { result ≡ on_sort (sorts.term_sort terms.now.shapes terms.now.decls (tree terms.now t)) (sort_eq (sorts.variable_sort variable)) }
{
    terms.law_arena();
    same_sort(variable_sort(variable), terms.sort(t))
}

// A variable meets a term for the first time.
fn met_first(
    s: &Setting<'_>,
    m: &Meeting<'_>,
    variable: Head,
    found: &mut Vec<List<Bound>>,
) -> Result<(), MatchFault>
    requires may { IsMeeting s.now m.now }
    requires found { AllBound (length s.now.terms.now.nodes) found.old.items }
    ensures ok { OnOk result (GoesOn s.now.terms.now
        (spec.met (setting_in s.now) variable None (tree s.now.terms.now m.now.term) (bindings_in s.now.terms.now m.now.bound.now))
        found.old.items found.new.items) }
    ensures fault { IfErr result (IsMatchFault s.now.terms.now
        (spec.met (setting_in s.now) variable None (tree s.now.terms.now m.now.term) (bindings_in s.now.terms.now m.now.bound.now))) }
{
    if !has_sort_of(s.terms, variable, m.term) {
        return Ok(());
    }
    let more = with_bound(s.alloc, m.bound, variable, m.term)?;
    put(found, more)?;
    Ok(())
}

// A variable that has met a term meets another one.
fn met_again(
    s: &Setting<'_>,
    m: &Meeting<'_>,
    variable: Head,
    before: TermId,
    found: &mut Vec<List<Bound>>,
) -> Result<(), MatchFault>
    requires may { IsMeeting s.now m.now }
    requires before { before.0 < length s.now.terms.now.nodes }
    requires found { AllBound (length s.now.terms.now.nodes) found.old.items }
    ensures ok { OnOk result (GoesOn s.now.terms.now
        (spec.met (setting_in s.now) variable (Some (tree s.now.terms.now before)) (tree s.now.terms.now m.now.term) (bindings_in s.now.terms.now m.now.bound.now))
        found.old.items found.new.items) }
    ensures fault { IfErr result (IsMatchFault s.now.terms.now
        (spec.met (setting_in s.now) variable (Some (tree s.now.terms.now before)) (tree s.now.terms.now m.now.term) (bindings_in s.now.terms.now m.now.bound.now))) }
{
    if !have_one_value(s, before, m.term)? {
        return Ok(());
    }
    put_copy(s.alloc, found, m.bound)?;
    Ok(())
}

// A variable meets a term.
pub(crate) fn met(
    s: &Setting<'_>,
    m: &Meeting<'_>,
    variable: Head,
    found: &mut Vec<List<Bound>>,
) -> Result<(), MatchFault>
    requires may { IsMeeting s.now m.now }
    requires found { AllBound (length s.now.terms.now.nodes) found.old.items }
    ensures ok { OnOk result (GoesOn s.now.terms.now
        (spec.met (setting_in s.now) variable (spec.bound (bindings_in s.now.terms.now m.now.bound.now) variable)
        (tree s.now.terms.now m.now.term) (bindings_in s.now.terms.now m.now.bound.now))
        found.old.items found.new.items) }
    ensures fault { IfErr result (IsMatchFault s.now.terms.now
        (spec.met (setting_in s.now) variable (spec.bound (bindings_in s.now.terms.now m.now.bound.now) variable)
        (tree s.now.terms.now m.now.term) (bindings_in s.now.terms.now m.now.bound.now))) }
{
    match bound_to(m.bound, variable) {
        None => met_first(s, m, variable, found),
        Some(before) => met_again(s, m, variable, before, found),
    }
}

// A numeral meets a term.
pub(crate) fn met_number(
    s: &Setting<'_>,
    m: &Meeting<'_>,
    number: i128,
    found: &mut Vec<List<Bound>>,
) -> Result<(), MatchFault>
    requires may { IsMeeting s.now m.now }
    requires number { fits number ≡ true }
    requires found { AllBound (length s.now.terms.now.nodes) found.old.items }
    ensures ok { OnOk result (GoesOn s.now.terms.now
        (spec.if_passes (spec.has_number (setting_in s.now).listed number (tree s.now.terms.now m.now.term))
        (Ok (bindings_in s.now.terms.now m.now.bound.now ∷ [])))
        found.old.items found.new.items) }
    ensures fault { IfErr result (IsMatchFault s.now.terms.now
        (spec.if_passes (spec.has_number (setting_in s.now).listed number (tree s.now.terms.now m.now.term))
        (Ok (bindings_in s.now.terms.now m.now.bound.now ∷ [])))) }
{
    if !has_number(s, number, m.term)? {
        return Ok(());
    }
    put_copy(s.alloc, found, m.bound)?;
    Ok(())
}
