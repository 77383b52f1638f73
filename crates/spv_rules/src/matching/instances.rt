// Instances of rules.

ghost use Rattle.std.specs.Prelude.{◌≡◌, ◌<◌, ◌+◌, length, map, fold, Some, Ok, OnOk, IfOk, IfErr, slice_get};
ghost use Rattle.std.specs.List.{list_any};
ghost use Rattle.spv_term.specs.Arena.{AllBelow, ids_eq, tree};
ghost use Rattle.spv_term.specs.substitution.Images.{head_at};
ghost use Rattle.spv_table.specs.Kept.{PairsIn, listed_over};
ghost use Rattle.spv_rules.specs.declared.rules.Rule.{Rule};
ghost use Rattle.spv_rules.specs.RuleSets.{rules_in};
ghost use Rattle.spv_rules.specs.matching.Matches as spec;
ghost use Rattle.spv_rules.specs.matching.Views.{setting_in, all_in, instance_in, instance_eq, with_instance, with_match, instances_here, instances_in, rule_found, bindings_in, ids_of, AllBound, AllIn, AreBound, Adds, IsSetting, IsMatchFault};

use crate::matching::bindings::{Bound, bound_to, same_head};
use crate::matching::faults::MatchFault;
use crate::matching::patterns::{Meeting, inside};
use crate::matching::values::Setting;
use crate::rules::Rules;
use spv_logic::Head;
use spv_logic::list::List;
use spv_table::Table;
use spv_term::{TermId, Terms};
use std::alloc::{AllocError, Global};

/// An instance of a rule: the rule's number, from 1, and a term for each of its variables, in the order in which its trigger first names
/// them.
#[derive(Debug, Drop)]
pub struct Instance {
    /// The rule's number.
    pub rule: u32,
    /// The terms.
    pub values: List<TermId>,
}

// The terms of variables, if each has met one.
fn values_of(
    alloc: Global,
    bound: &[Bound],
    variables: &[Head],
) -> Result<Option<List<TermId>>, AllocError>
    ensures { IfOk result (λ o. o ≡ ids_of bound.now variables.now) }
{
    let mut values = Vec::new(alloc);
    for variable in variables {
        let Some(t) = bound_to(bound, *variable) else {
            return Ok(None);
        };
        values.push(t)?;
    }
    Ok(Some(List::from_vec(values)))
}

// Whether two lists of terms are the same.
fn same_terms(left: &[TermId], right: &[TermId]) -> bool
    ensures { result ≡ ids_eq left.now right.now }
{
    if left.len() != right.len() {
        return false;
    }
    for i in 0..left.len() {
        if left[i].0 != right[i].0 {
            return false;
        }
    }
    true
}

// Whether two instances are the same.
fn is_same(left: &Instance, right: &Instance) -> bool
    ensures { result ≡ instance_eq left.now right.now }
{
    left.rule == right.rule && same_terms(left.values.as_slice(), right.values.as_slice())
}

// Whether an instance is there.
fn is_there(found: &[Instance], one: &Instance) -> bool
    ensures { result ≡ list_any (instance_eq one.now) found.now }
{
    for other in found {
        if is_same(one, other) {
            return true;
        }
    }
    false
}

// An instance more, where it is new.
fn add(found: &mut Vec<Instance>, one: Instance) -> Result<(), AllocError>
    ensures { OnOk result (found.new.items ≡ with_instance found.old.items one) }
{
    if is_there(found.as_slice(), &one) {
        return Ok(());
    }
    found.push(one)?;
    Ok(())
}

// The instance of a match, if each variable has met a term, where it is new.
fn add_match(
    alloc: Global,
    number: u32,
    variables: &[Head],
    bound: &[Bound],
    found: &mut Vec<Instance>,
) -> Result<(), AllocError>
    ensures { OnOk result (found.new.items ≡ with_match number variables.now found.old.items bound.now) }
{
    let Some(values) = values_of(alloc, bound, variables)? else {
        return Ok(());
    };
    add(
        found,
        Instance {
            rule: number,
            values,
        },
    )?;
    Ok(())
}

// The instances of matches, each where it is new.
fn add_matches(
    alloc: Global,
    number: u32,
    variables: &[Head],
    matches: &[List<Bound>],
    found: &mut Vec<Instance>,
) -> Result<(), AllocError>
    ensures { OnOk result (found.new.items ≡ fold (with_match number variables.now) found.old.items matches.now) }
{
    for bound in matches {
        add_match(alloc, number, variables, bound.as_slice(), found)?;
    }
    Ok(())
}

// The instances of a rule at a used term.
fn add_at(
    s: &Setting<'_>,
    number: u32,
    trigger: TermId,
    u: TermId,
    found: &mut Vec<Instance>,
) -> Result<(), MatchFault>
    requires setting { IsSetting s.now }
    requires trigger { trigger.0 < length s.now.patterns.now.nodes }
    requires u { u.0 < length s.now.terms.now.nodes }
    requires found { AllIn (length s.now.terms.now.nodes) found.old.items }
    ensures ok { OnOk result (Adds s.now.terms.now
        (instances_here s.now number trigger u) found.old.items found.new.items) }
    ensures fault { IfErr result (IsMatchFault s.now.terms.now
        (instances_here s.now number trigger u)) }
{
    s.patterns.law_arena();
    s.terms.law_arena();
    if !same_head(s.patterns.node(trigger).head, s.terms.node(u).head) {
        return Ok(());
    }
    let m = Meeting {
        pattern: trigger,
        term: u,
        bound: &[],
    };
    let matches = inside(s, &m, u)?;
    add_matches(s.alloc, number, s.variables, matches.as_slice(), found)?;
    Ok(())
}

// The instances of a rule.
fn add_rule(
    s: &Setting<'_>,
    number: u32,
    trigger: TermId,
    found: &mut Vec<Instance>,
) -> Result<(), MatchFault>
    requires setting { IsSetting s.now }
    requires trigger { trigger.0 < length s.now.patterns.now.nodes }
    requires found { AllIn (length s.now.terms.now.nodes) found.old.items }
    ensures ok { OnOk result (Adds s.now.terms.now (instances_in s.now number trigger s.now.used.now) found.old.items found.new.items) }
    ensures fault { IfErr result (IsMatchFault s.now.terms.now (instances_in s.now number trigger s.now.used.now)) }
{
    for u in s.used {
        add_at(s, number, trigger, *u, found)?;
    }
    Ok(())
}

// The heads of terms.
fn heads_of(alloc: Global, terms: &Terms, ts: &[TermId]) -> Result<Vec<Head>, AllocError>
    requires { AllBelow (length terms.now.nodes) ts.now }
    ensures { IfOk result (λ heads. heads.items ≡ map (head_at terms.now) ts.now) }
{
    terms.law_arena();
    let mut heads = Vec::new(alloc);
    for t in ts {
        heads.push(terms.node(*t).head)?;
    }
    Ok(heads)
}

// The number of the rule at a place, from 1.
fn number_at(place: usize) -> Result<u32, AllocError>
    ensures { IfOk result (λ n. n ≡ place + 1) }
{
    if place >= u32::MAX as usize {
        return Err(AllocError);
    }
    Ok(place as u32 + 1)
}

// The instances of the rule at a place.
fn add_numbered(
    s: &Setting<'_>,
    rules: &Rules,
    place: usize,
    found: &mut Vec<Instance>,
) -> Result<(), MatchFault>
    requires setting { IsSetting s.now }
    requires rules { s.now.patterns.now ≡ rules.now.arena }
    requires place { place < length rules.now.list }
    requires found { AllIn (length s.now.terms.now.nodes) found.old.items }
    ensures ok { (r : Rule) → slice_get rules.now.list place ≡ Some r
        → OnOk result (Adds s.now.terms.now (rule_found rules.now.arena s.now (place + 1) r) found.old.items found.new.items) }
    ensures fault { (r : Rule) → slice_get rules.now.list place ≡ Some r
        → IfErr result (IsMatchFault s.now.terms.now (rule_found rules.now.arena s.now (place + 1) r)) }
{
    rules.law_rules();
    let rule = rules.get(place);
    let number = number_at(place)?;
    let heads = heads_of(s.alloc, rules.terms(), rule.variables.as_slice())?;
    let own = Setting {
        alloc: s.alloc,
        patterns: s.patterns,
        variables: heads.as_slice(),
        terms: s.terms,
        used: s.used,
        table: s.table,
    };
    add_rule(&own, number, rule.trigger, found)?;
    Ok(())
}

/// The instances of rules that used terms call for, where a table says what terms are worth: in the order of the rules and then of the
/// terms, none twice. An instance is found at a used term of the trigger's head, whose arguments the trigger's meet from left to right: a
/// variable the term that it meets first, if that has its sort, and then terms of the same value; a numeral a term of that value; any other
/// application each used term of its head that has the value of the term in its place.
///
/// `Wide` is a term whose value is too wide, where a test of values meets one, and then the first of these: in the earliest rule, there at the
/// earliest used term, there in the earliest argument; of a test's two terms the used one, or the one that was met before. It comes nowhere else.
pub fn matches(
    alloc: Global,
    rules: &Rules,
    terms: &Terms,
    used: &[TermId],
    table: &Table,
) -> Result<Vec<Instance>, MatchFault>
    requires used { AllBelow (length terms.now.nodes) used.now }
    requires values { PairsIn terms.now table.now.values }
    ensures instances { IfOk result
        (λ found. spec.matches terms.now.shapes terms.now.decls (rules_in rules.now) (map (tree terms.now) used.now) (listed_over terms.now table.now.values)
        ≡ Ok (map (instance_in terms.now) found.items)) }
    ensures in_range { IfOk result (λ found. AllIn (length terms.now.nodes) found.items) }
    ensures fault { IfErr result (IsMatchFault terms.now
        (spec.matches terms.now.shapes terms.now.decls (rules_in rules.now) (map (tree terms.now) used.now) (listed_over terms.now table.now.values))) }
{
    let s = Setting {
        alloc,
        patterns: rules.terms(),
        variables: &[],
        terms,
        used,
        table,
    };
    let mut found = Vec::new(alloc);
    for place in 0..rules.len() {
        add_numbered(&s, rules, place, &mut found)?;
    }
    Ok(found)
}
