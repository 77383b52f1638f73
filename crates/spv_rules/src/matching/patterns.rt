// Patterns, and what they meet.

ghost use Rattle.std.specs.Prelude.{◌≡◌, ◌<◌, length, min, OnOk, IfOk, IfErr};
ghost use Rattle.std.specs.List.{list_any};
ghost use Rattle.spv_logic.specs.Terms.{head_eq};
ghost use Rattle.spv_term.specs.Arena.{tree};
ghost use Rattle.spv_rules.specs.matching.Matches as spec;
ghost use Rattle.spv_rules.specs.matching.Views.{setting_in, all_in, inside_in, matched_in, applied_in, met_by_in, AllBound, GoesOn, IsFound, IsMeeting, IsSetting, IsMatchFault};

use crate::matching::bindings::{Bound, put_copy, same_head};
use crate::matching::faults::MatchFault;
use crate::matching::values::{Setting, have_one_value};
use crate::matching::variables::{met, met_number};
use spv_logic::Head;
use spv_logic::list::List;
use spv_term::TermId;

// A pattern, the term that it is to meet, and the terms that variables have met before.
#[derive(Clone, Copy)]
pub(crate) struct Meeting<'a> {
    pub(crate) pattern: TermId,
    pub(crate) term: TermId,
    pub(crate) bound: &'a [Bound],
}

// Whether a head is one of the variables.
fn is_variable(variables: &[Head], head: Head) -> bool
    ensures { result ≡ list_any (head_eq head) variables.now }
{
    for variable in variables {
        if same_head(head, *variable) {
            return true;
        }
    }
    false
}

// The lesser of two numbers.
fn lesser(left: usize, right: usize) -> usize
    ensures { result ≡ min left right }
{
    if left < right { left } else { right }
}

// The matches of the arguments of a pattern with those of a used term.
#[cycle(patterns)]
pub(crate) fn inside(
    s: &Setting<'_>,
    m: &Meeting<'_>,
    u: TermId,
) -> Result<Vec<List<Bound>>, MatchFault>
    requires may { IsMeeting s.now m.now }
    requires u { u.0 < length s.now.terms.now.nodes }
    ensures ok { IfOk result (λ found. IsFound s.now.terms.now (inside_in s.now m.now u) found.items) }
    ensures fault { IfErr result (IsMatchFault s.now.terms.now (inside_in s.now m.now u)) }
{
    s.patterns.law_arena();
    s.terms.law_arena();
    let patterns = s.patterns.node(m.pattern).args.as_slice();
    let terms = s.terms.node(u).args.as_slice();
    let mut found = Vec::new(s.alloc);
    put_copy(s.alloc, &mut found, m.bound)?;
    let count = lesser(patterns.len(), terms.len());
    for i in 0..count {
        found = each_matched(s, patterns[i], terms[i], found.as_slice())?;
    }
    Ok(found)
}

// The matches of a pattern with a term that go on from these.
#[cycle(patterns)]
fn each_matched(
    s: &Setting<'_>,
    pattern: TermId,
    t: TermId,
    before: &[List<Bound>],
) -> Result<Vec<List<Bound>>, MatchFault>
    requires setting { IsSetting s.now }
    requires pattern { pattern.0 < length s.now.patterns.now.nodes }
    requires t { t.0 < length s.now.terms.now.nodes }
    requires before { AllBound (length s.now.terms.now.nodes) before.now }
    ensures ok { IfOk result (λ found. IsFound s.now.terms.now
        (spec.each (spec.matched (setting_in s.now) (tree s.now.patterns.now pattern) (tree s.now.terms.now t)) (all_in s.now.terms.now before.now))
        found.items) }
    ensures fault { IfErr result (IsMatchFault s.now.terms.now
        (spec.each (spec.matched (setting_in s.now) (tree s.now.patterns.now pattern) (tree s.now.terms.now t)) (all_in s.now.terms.now before.now))) }
{
    let mut found = Vec::new(s.alloc);
    for bound in before {
        let m = Meeting {
            pattern,
            term: t,
            bound: bound.as_slice(),
        };
        matched(s, &m, &mut found)?;
    }
    Ok(found)
}

// The matches of a pattern with a term.
#[cycle(patterns)]
fn matched(s: &Setting<'_>, m: &Meeting<'_>, found: &mut Vec<List<Bound>>) -> Result<(), MatchFault>
    requires may { IsMeeting s.now m.now }
    requires found { AllBound (length s.now.terms.now.nodes) found.old.items }
    ensures ok { OnOk result (GoesOn s.now.terms.now (matched_in s.now m.now) found.old.items found.new.items) }
    ensures fault { IfErr result (IsMatchFault s.now.terms.now (matched_in s.now m.now)) }
{
    s.patterns.law_arena();
    let head = s.patterns.node(m.pattern).head;
    if is_variable(s.variables, head) {
        return met(s, m, head, found);
    }
    match head {
        Head::Num(number) => met_number(s, m, number, found),
        _ => applied(s, m, found),
    }
}

// The matches of an application with a term: by each used term of its head.
#[cycle(patterns)]
fn applied(s: &Setting<'_>, m: &Meeting<'_>, found: &mut Vec<List<Bound>>) -> Result<(), MatchFault>
    requires may { IsMeeting s.now m.now }
    requires found { AllBound (length s.now.terms.now.nodes) found.old.items }
    ensures ok { OnOk result (GoesOn s.now.terms.now (applied_in s.now m.now s.now.used.now) found.old.items found.new.items) }
    ensures fault { IfErr result (IsMatchFault s.now.terms.now (applied_in s.now m.now s.now.used.now)) }
{
    for u in s.used {
        met_by(s, m, *u, found)?;
    }
    Ok(())
}

// The matches of an application with a term, by one used term.
#[cycle(patterns)]
fn met_by(
    s: &Setting<'_>,
    m: &Meeting<'_>,
    u: TermId,
    found: &mut Vec<List<Bound>>,
) -> Result<(), MatchFault>
    requires may { IsMeeting s.now m.now }
    requires u { u.0 < length s.now.terms.now.nodes }
    requires found { AllBound (length s.now.terms.now.nodes) found.old.items }
    ensures ok { OnOk result (GoesOn s.now.terms.now (met_by_in s.now m.now u) found.old.items found.new.items) }
    ensures fault { IfErr result (IsMatchFault s.now.terms.now (met_by_in s.now m.now u)) }
{
    s.patterns.law_arena();
    s.terms.law_arena();
    if !same_head(s.patterns.node(m.pattern).head, s.terms.node(u).head) {
        return Ok(());
    }
    if !have_one_value(s, u, m.term)? {
        return Ok(());
    }
    let mut more = inside(s, m, u)?;
    found.append(&mut more)?;
    Ok(())
}
