// Values of all terms, the connectives computed anew, and the first one that clashes.

ghost use Rattle.std.specs.Prelude.{◌≡◌, ◌<◌, true, length, slice_get, slice_set, IfOk, IfSome, IfNone};
ghost use Rattle.spv_term.specs.Arena.{tree};
ghost use Rattle.spv_proof_rules.specs.Evaluation as evaluation;
ghost use Rattle.spv_assignments.specs.kleene.Passes as spec;
ghost use Rattle.spv_assignments.specs.kleene.Passes.{AreConnectives, ArePlain, AreQuiet, AreStarted, Clashes, ClashesListed, HasPassed, IsLoud, MarksArguments, NoConnectiveClashes, NoneClashes, NoneClashesListed, PassesAll, PassesListed};

use crate::kleene::connectives::{Connectives, is_marked};
use crate::kleene::tables::{connected, opposite, or_else};
use spv_search_terms::head_index::is_connective;
use spv_term::{TermId, Terms};
use std::alloc::{AllocError, Global};

/// The value that is listed for a term; past the end there is none.
pub fn value_at(values: &[Option<bool>], t: TermId) -> Option<bool>
    ensures { result ≡ spec.at values.now t.0 }
{
    match values.get(t.0 as usize) {
        Some(value) => *value,
        None => None,
    }
}

// The value that is listed for a term, where one of them has another one.
fn given_at(own: &[Option<bool>], s: TermId, v: bool, t: TermId) -> Option<bool>
    ensures { result ≡ spec.given_at own.now s v t }
{
    if t.0 == s.0 {
        Some(v)
    } else {
        value_at(own, t)
    }
}

// The value of the first of these terms.
fn first_found(found: &[Option<bool>], args: &[TermId]) -> Option<bool>
    ensures { result ≡ spec.first_found found.now args.now }
{
    match args {
        [t, ..] => value_at(found, *t),
        [] => None,
    }
}

// The value of the second of these terms.
fn second_found(found: &[Option<bool>], args: &[TermId]) -> Option<bool>
    ensures { result ≡ spec.second_found found.now args.now }
{
    match args {
        [_, others @ ..] => first_found(found, others),
        [] => None,
    }
}

// The value of a connective, from those of its arguments.
fn computed(terms: &Terms, found: &[Option<bool>], t: TermId) -> Option<bool>
    requires { t.0 < length terms.now.nodes }
    ensures { result ≡ spec.of_node found.now (slice_get terms.now.nodes t.0) }
{
    let node = terms.node(t);
    let args = node.args.as_slice();
    let x = first_found(found, args);
    let y = second_found(found, args);
    connected(node.head, x, y)
}

// Lists another value for a term.
fn set(values: &mut Vec<Option<bool>>, t: TermId, value: Option<bool>)
    requires { t.0 < length values.old.items }
    ensures { values.new.items ≡ slice_set values.old.items t.0 value }
{
    values[t.0 as usize] = value;
}

// The first connective that clashes.
fn first_clash(
    terms: &Terms,
    ids: &[TermId],
    own: &[Option<bool>],
    s: TermId,
    v: bool,
    start: Vec<Option<bool>>,
) -> Option<TermId>
    requires ids { AreConnectives terms.now ids.now }
    requires start { HasPassed terms.now own.now s v ids.now 0 start.items }
    ensures clash { IfSome result (Clashes terms.now own.now s v) }
    ensures none { IfNone result (NoConnectiveClashes terms.now own.now s v) }
    ensures passed { IfNone result (PassesAll terms.now own.now s v ids.now) }
{
    terms.law_arena();
    let mut found = start;
    for t in ids {
        let value = computed(terms, found.as_slice(), *t);
        let given = given_at(own, s, v, *t);
        if opposite(value, given) {
            return Some(*t);
        }
        set(&mut found, *t, or_else(given, value));
    }
    None
}

// The same values as a vector, with another one for a term.
fn copied(
    alloc: Global,
    start: &[Option<bool>],
    s: TermId,
    v: bool,
) -> Result<Vec<Option<bool>>, AllocError>
    requires { s.0 < length start.now }
    ensures { IfOk result (λ copy. copy.items ≡ slice_set start.now s.0 (Some v)) }
{
    let mut copy = Vec::new(alloc);
    copy.extend_from_slice(start)?;
    set(&mut copy, s, Some(v));
    Ok(copy)
}

/// The first term that clashes, where one term is given this value, and each other one the listed value: its computed value is opposite to the
/// given one. `start` has the values of the terms that are no connectives, and `arguments` says which terms are arguments of connectives. No term
/// clashes where nothing is supposed.
pub fn clash(
    alloc: Global,
    terms: &Terms,
    connectives: &Connectives,
    arguments: &[bool],
    own: &[Option<bool>],
    start: &[Option<bool>],
    s: TermId,
    v: bool,
) -> Result<Option<TermId>, AllocError>
    requires ids { AreConnectives terms.now connectives.now.ids.items }
    requires plain { ArePlain terms.now connectives.now.plain.items }
    requires arguments { MarksArguments terms.now arguments.now }
    requires quiet { AreQuiet terms.now own.now }
    requires start { AreStarted terms.now own.now start.now }
    requires passed { PassesListed terms.now own.now connectives.now.ids.items }
    requires s { s.0 < length terms.now.nodes }
    ensures clash { IfOk result (λ found. IfSome found (Clashes terms.now own.now s v)) }
    ensures none { IfOk result (λ found. IfNone found (NoneClashes terms.now own.now s v)) }
{
    terms.law_arena();
    let own_value = value_at(connectives.plain.as_slice(), s);
    if opposite(own_value, Some(v)) {
        return Ok(Some(s));
    }
    if !is_marked(arguments, s) && !is_connective(terms, s) {
        return Ok(None);
    }
    let begun = copied(alloc, start, s, v)?;
    Ok(first_clash(terms, connectives.ids.as_slice(), own, s, v, begun))
}

// The same values as a vector.
fn copied_all(alloc: Global, start: &[Option<bool>]) -> Result<Vec<Option<bool>>, AllocError>
    ensures { IfOk result (λ copy. copy.items ≡ start.now) }
{
    let mut copy = Vec::new(alloc);
    copy.extend_from_slice(start)?;
    Ok(copy)
}

/// The first term that clashes, where each term is given the listed value.
pub fn listed_clash(
    alloc: Global,
    terms: &Terms,
    connectives: &Connectives,
    own: &[Option<bool>],
    start: &[Option<bool>],
) -> Result<Option<TermId>, AllocError>
    requires ids { AreConnectives terms.now connectives.now.ids.items }
    requires quiet { AreQuiet terms.now own.now }
    requires start { AreStarted terms.now own.now start.now }
    ensures clash { IfOk result (λ found. IfSome found (ClashesListed terms.now own.now)) }
    ensures none { IfOk result (λ found. IfNone found (NoneClashesListed terms.now own.now)) }
    ensures passed { IfOk result (λ found. IfNone found (PassesListed terms.now own.now connectives.now.ids.items)) }
{
    let begun = copied_all(alloc, start)?;
    let none = TermId(terms.len());
    Ok(first_clash(terms, connectives.ids.as_slice(), own, none, true, begun))
}

/// What is listed for each term, else the value that it has by itself.
pub fn started(
    alloc: Global,
    terms: &Terms,
    own: &[Option<bool>],
    plain: &[Option<bool>],
) -> Result<Vec<Option<bool>>, AllocError>
    requires plain { ArePlain terms.now plain.now }
    ensures { IfOk result (λ start. AreStarted terms.now own.now start.items) }
{
    let mut start = Vec::new(alloc);
    for i in 0..terms.len() {
        let t = TermId(i);
        start.push(or_else(value_at(own, t), value_at(plain, t)))?;
    }
    Ok(start)
}

/// A term whose listed value is opposite to that which it has by itself.
pub fn loud(terms: &Terms, own: &[Option<bool>], plain: &[Option<bool>]) -> Option<TermId>
    requires plain { ArePlain terms.now plain.now }
    ensures loud { IfSome result (IsLoud terms.now own.now) }
    ensures quiet { IfNone result (AreQuiet terms.now own.now) }
{
    for i in 0..terms.len() {
        let t = TermId(i);
        if opposite(value_at(plain, t), value_at(own, t)) {
            return Some(t);
        }
    }
    None
}
