// The connectives of an arena, and the values that other terms have by themselves.

ghost use Rattle.std.specs.Prelude.{◌≡◌, ◌<◌, ◌++◌, ◌∷◌, [], length, IfOk, OnOk, if◌then◌else◌};
ghost use Rattle.spv_term.specs.Arena.{tree};
ghost use Rattle.spv_assignments.specs.kleene.Passes as spec;
ghost use Rattle.spv_assignments.specs.kleene.Passes.{AreConnectives, ArePlain, Keeps, Marks, MarksAll, MarksArguments};

use spv_atoms::numeral_relation;
use spv_search_terms::head_index::is_connective;
use spv_term::{Head, TermId, Terms};
use std::alloc::{AllocError, Global};

/// The connectives of an arena, and the values that other terms have by themselves.
#[derive(Drop)]
pub struct Connectives {
    /// The ids of the connectives, in order.
    pub ids: Vec<TermId>,
    /// The value that each term has without looking at others.
    pub plain: Vec<Option<bool>>,
}

// The value of a term that is no connective.
fn plain(terms: &Terms, t: TermId) -> Option<bool>
    requires { t.0 < length terms.now.nodes }
    ensures { result ≡ spec.plain (tree terms.now t) }
{
    terms.law_arena();
    match terms.node(t).head {
        Head::True => Some(true),
        Head::False => Some(false),
        _ => numeral_relation(terms, t),
    }
}

// The value of a term that is computed without looking at others.
fn plain_at(terms: &Terms, t: TermId, connects: bool) -> Option<bool>
    requires t { t.0 < length terms.now.nodes }
    requires connects { connects ≡ spec.connects terms.now t }
    ensures { result ≡ spec.plain_at terms.now t }
{
    if connects { None } else { plain(terms, t) }
}

// Puts an id behind others, where it is wanted.
fn push_if(ids: &mut Vec<TermId>, wanted: bool, t: TermId) -> Result<(), AllocError>
    ensures { OnOk result (ids.new.items ≡ (if wanted then ids.old.items ++ t ∷ [] else ids.old.items)) }
{
    if wanted {
        ids.push(t)?;
    }
    Ok(())
}

// The ids of all connectives of an arena, in order.
fn connective_ids(alloc: Global, terms: &Terms) -> Result<Vec<TermId>, AllocError>
    ensures { IfOk result (λ ids. AreConnectives terms.now ids.items) }
{
    let mut ids = Vec::new(alloc);
    for i in 0..terms.len() {
        let t = TermId(i);
        let wanted = is_connective(terms, t);
        push_if(&mut ids, wanted, t)?;
    }
    Ok(ids)
}

// The values that terms have without looking at others.
fn plain_values(alloc: Global, terms: &Terms) -> Result<Vec<Option<bool>>, AllocError>
    ensures { IfOk result (λ values. ArePlain terms.now values.items) }
{
    let mut values = Vec::new(alloc);
    for i in 0..terms.len() {
        let t = TermId(i);
        let connects = is_connective(terms, t);
        values.push(plain_at(terms, t, connects))?;
    }
    Ok(values)
}

/// The connectives of an arena, and the values that other terms have by themselves.
pub fn connectives_of(alloc: Global, terms: &Terms) -> Result<Connectives, AllocError>
    ensures ids { IfOk result (λ c. AreConnectives terms.now c.ids.items) }
    ensures plain { IfOk result (λ c. ArePlain terms.now c.plain.items) }
{
    let ids = connective_ids(alloc, terms)?;
    let plain = plain_values(alloc, terms)?;
    Ok(Connectives { ids, plain })
}

// Marks a term.
fn mark(marks: &mut Vec<bool>, t: TermId)
    ensures { Marks marks.old.items marks.new.items t }
{
    let place = t.0 as usize;
    if place < marks.len() {
        marks[place] = true;
    }
}

// Marks these terms.
fn mark_all(marks: &mut Vec<bool>, ids: &[TermId])
    ensures all { MarksAll marks.new.items ids.now }
    ensures kept { Keeps marks.old.items marks.new.items }
{
    for t in ids {
        mark(marks, *t);
    }
}

/// Beside each term whether it is an argument of a connective.
pub fn arguments_of(alloc: Global, terms: &Terms, ids: &[TermId]) -> Result<Vec<bool>, AllocError>
    requires ids { AreConnectives terms.now ids.now }
    ensures arguments { IfOk result (λ marks. MarksArguments terms.now marks.items) }
{
    let mut marks = vec![in alloc; false; terms.len() as usize]?;
    for t in ids {
        mark_all(&mut marks, terms.node(*t).args.as_slice());
    }
    Ok(marks)
}

/// Whether a term is marked; past the end it is.
pub fn is_marked(marks: &[bool], t: TermId) -> bool
    ensures { result ≡ spec.is_marked marks.now t }
{
    match marks.get(t.0 as usize) {
        Some(marked) => *marked,
        None => true,
    }
}
