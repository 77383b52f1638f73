// The search of a point that meets all bounds.

ghost use Rattle.std.specs.Prelude.{◌≡◌, ◌<◌, ◌≤◌, ◌+◌, ◌^◌, [], false, length, map, vec_capacity, IfOk, IfErr, IfSome, IfNone, OnOk, OnErr};
ghost use Rattle.spv_tableau_rules.specs.tableaux.Operations.{fits, Compares};
ghost use Rattle.spv_dictionary.specs.Dictionary.{outside_at};
ghost use Rattle.spv_dictionary.specs.updates.Shifts.{value_in};
ghost use Rattle.spv_dictionary.specs.pivoting.Choosing.{limits_of, out_side};
ghost use Rattle.spv_dictionary.specs.pivoting.Combining.{multiple_in};
ghost use Rattle.spv_dictionary.specs.pivoting.Finding.{IsChosen};
ghost use Rattle.spv_simplex.specs.pivot_runs.Derivation.{IsPlaced, IsPlacing, ArePlaced};
ghost use Rattle.spv_simplex.specs.Evidence.{no_operation, begun};
ghost use Rattle.spv_simplex.specs.Searching.{IsTurn, HasStopped, Arrives, Ends, PlacingEnds};

use crate::checked::Checked;
use crate::evidence::Evidence;
use spv_dictionary::Dictionary;
use spv_dictionary::checked_numbers::{Number, Refused};
use spv_dictionary::pivoting::{
    Chosen, Entry, Found, Trail, broken, combine, find, limit, move_to, step,
};
use spv_frac::Frac;
use spv_tableau_rules::tableaux::Side;

// The side of its bounds that the column of a slot breaks.
fn slot_side(
    dictionary: &Dictionary,
    values: &[Number],
    trail: &Trail,
    slot: usize,
) -> Result<Option<Side>, Refused>
    requires count { length values.now ≡ length dictionary.now.spots }
    requires rows { trail.now.rows ≡ length dictionary.now.basic }
    requires slot { slot < length dictionary.now.outside }
    ensures value { IfOk result (λ s. s ≡ out_side (limits_of (length dictionary.now.outside) trail.now.bounds) (value_in values.now) (outside_at dictionary.now slot)) }
    ensures refused { IfErr result (λ o. Compares (limits_of (length dictionary.now.outside) trail.now.bounds) (value_in values.now) o) }
    ensures unfit { IfErr result (λ o. fits o ≡ false) }
{
    dictionary.law_dictionary();
    let column = dictionary.outside(slot) as usize;
    let width = dictionary.slots();
    broken(
        limit(trail, width, column, Side::Lower),
        limit(trail, width, column, Side::Upper),
        values[column],
    )
}

// The column of a slot moves to the bound that it breaks, if it breaks one.
fn place(
    dictionary: &Dictionary,
    values: &mut [Number],
    trail: &Trail,
    slot: usize,
) -> Result<(), Refused>
    requires count { length values.old ≡ length dictionary.now.spots }
    requires rows { trail.now.rows ≡ length dictionary.now.basic }
    requires slot { slot < length dictionary.now.outside }
    ensures placed { OnOk result (IsPlaced (limits_of (length dictionary.now.outside) trail.now.bounds) dictionary.now values.old slot values.new) }
    ensures values { OnErr result (values.new ≡ values.old) }
    ensures refused { IfErr result (λ o. IsPlacing (limits_of (length dictionary.now.outside) trail.now.bounds) dictionary.now values.old slot o) }
    ensures unfit { IfErr result (λ o. fits o ≡ false) }
{
    dictionary.law_dictionary();
    match slot_side(dictionary, values, trail, slot) {
        Ok(Some(side)) => {
            let column = dictionary.outside(slot) as usize;
            let bound = limit(trail, dictionary.slots(), column, side).unwrap();
            move_to(dictionary, values, slot, bound)
        }
        Ok(None) => Ok(()),
        Err(refused) => Err(refused),
    }
}

// All columns outside the basis move into their bounds.
fn place_all(dictionary: &Dictionary, values: &mut [Number], trail: &Trail) -> Result<(), Refused>
    requires count { length values.old ≡ length dictionary.now.spots }
    requires rows { trail.now.rows ≡ length dictionary.now.basic }
    ensures placed { OnOk result (ArePlaced (limits_of (length dictionary.now.outside) trail.now.bounds) dictionary.now values.old (length dictionary.now.outside) values.new) }
    ensures refused { IfErr result (λ o. PlacingEnds (limits_of (length dictionary.now.outside) trail.now.bounds) dictionary.now values.old values.new o) }
{
    for slot in 0..dictionary.slots() {
        match place(dictionary, values, trail, slot) {
            Ok(()) => {}
            Err(refused) => return Err(refused),
        }
    }
    Ok(())
}

// Makes a step, if there is room for one more.
fn advance(
    dictionary: &mut Dictionary,
    values: &mut [Number],
    trail: &Trail,
    evidence: &mut Evidence,
    chosen: Chosen,
    entry: Entry,
) -> Option<Checked>
    requires count { length values.old ≡ length dictionary.old.spots }
    requires chosen { IsChosen (limits_of (length dictionary.old.outside) trail.now.bounds) dictionary.old (value_in values.old) chosen entry }
    requires operation { evidence.old.operation ≡ no_operation }
    ensures on { IfNone result (IsTurn (limits_of (length dictionary.old.outside) trail.now.bounds) dictionary.old values.old evidence.old dictionary.new values.new evidence.new) }
    ensures stopped { IfSome result (λ a. (combination : _)
        → HasStopped (limits_of (length dictionary.old.outside) trail.now.bounds) dictionary.old values.old evidence.old dictionary.new values.new combination evidence.new a) }
{
    dictionary.law_dictionary();
    if evidence.is_full() {
        return Some(Checked::Pivots);
    }
    let leaving = dictionary.basic(chosen.row);
    let entering = dictionary.outside(entry.slot);
    match step(dictionary, values, chosen.row, entry.slot, chosen.bound) {
        Ok(()) => {
            dictionary.law_dictionary();
            evidence.add_step(leaving, entering);
            None
        }
        Err(refused) => {
            evidence.refuse(refused);
            Some(Checked::Wide)
        }
    }
}

// Makes the next step; the answer, where there is none.
fn turn(
    dictionary: &mut Dictionary,
    values: &mut [Number],
    trail: &Trail,
    combination: &mut Vec<(u32, Side, Frac)>,
    evidence: &mut Evidence,
) -> Option<Checked>
    requires count { length values.old ≡ length dictionary.old.spots }
    requires rows { trail.now.rows ≡ length dictionary.old.basic }
    requires few { length dictionary.old.spots < 2 ^ 32 }
    requires room { length dictionary.old.basic ≤ vec_capacity combination.old }
    requires operation { evidence.old.operation ≡ no_operation }
    ensures on { IfNone result (IsTurn (limits_of (length dictionary.old.outside) trail.now.bounds) dictionary.old values.old evidence.old dictionary.new values.new evidence.new) }
    ensures stopped { IfSome result (HasStopped (limits_of (length dictionary.old.outside) trail.now.bounds) dictionary.old values.old evidence.old dictionary.new values.new
        (map multiple_in combination.new.items) evidence.new) }
    ensures capacity { vec_capacity combination.old ≤ vec_capacity combination.new }
{
    dictionary.law_dictionary();
    match find(dictionary, values, trail) {
        Ok(Found::Met) => Some(Checked::Feasible),
        Ok(Found::Stuck(chosen)) => {
            combine(dictionary, combination, chosen.row, chosen.side);
            Some(Checked::Infeasible)
        }
        Ok(Found::Step(chosen, entry)) => {
            advance(dictionary, values, trail, evidence, chosen, entry)
        }
        Err(refused) => {
            evidence.refuse(refused);
            Some(Checked::Wide)
        }
    }
}

// Makes steps until there is an answer.
fn go(
    dictionary: &mut Dictionary,
    values: &mut [Number],
    trail: &Trail,
    combination: &mut Vec<(u32, Side, Frac)>,
    evidence: &mut Evidence,
) -> Checked
    requires count { length values.old ≡ length dictionary.old.spots }
    requires rows { trail.now.rows ≡ length dictionary.old.basic }
    requires few { length dictionary.old.spots < 2 ^ 32 }
    requires room { length dictionary.old.basic ≤ vec_capacity combination.old }
    requires operation { evidence.old.operation ≡ no_operation }
    requires begins { evidence.old.steps ≡ [] }
    ensures arrives { Arrives (limits_of (length dictionary.old.outside) trail.now.bounds) dictionary.old values.old evidence.old dictionary.new values.new
        (map multiple_in combination.new.items) evidence.new result }
    ensures capacity { vec_capacity combination.old ≤ vec_capacity combination.new }
{
    loop {
        match turn(dictionary, values, trail, combination, evidence) {
            Some(answer) => return answer,
            None => {}
        }
    }
}

/// Searches a point that meets all bounds from the solved form and the values that are kept.
pub(crate) fn search(
    dictionary: &mut Dictionary,
    values: &mut [Number],
    trail: &Trail,
    combination: &mut Vec<(u32, Side, Frac)>,
    evidence: &mut Evidence,
) -> Checked
    requires count { length values.old ≡ length dictionary.old.spots }
    requires rows { trail.now.rows ≡ length dictionary.old.basic }
    requires few { length dictionary.old.spots < 2 ^ 32 }
    requires room { length dictionary.old.basic ≤ vec_capacity combination.old }
    requires bounds { length trail.now.bounds ≤ evidence.old.room.bounds }
    requires basis { length dictionary.old.basic ≤ evidence.old.room.basis }
    requires held { length dictionary.old.outside ≤ evidence.old.room.held }
    ensures ends { Ends (limits_of (length dictionary.old.outside) trail.now.bounds) dictionary.old values.old (begun evidence.old.room trail.now.bounds dictionary.old values.old)
        dictionary.new values.new (map multiple_in combination.new.items) evidence.new result }
    ensures capacity { vec_capacity combination.old ≤ vec_capacity combination.new }
{
    dictionary.law_dictionary();
    evidence.begin(trail, dictionary, values);
    match place_all(dictionary, values, trail) {
        Ok(()) => go(dictionary, values, trail, combination, evidence),
        Err(refused) => {
            evidence.refuse(refused);
            Checked::Wide
        }
    }
}
