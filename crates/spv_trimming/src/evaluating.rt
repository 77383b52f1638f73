// What an evaluation needs: the facts from which the value comes that its claim may not have.

use crate::connectives::{Connective, Connectives, Shape, Sources, combined, opposite, sources_of};
use crate::facts::{Facts, Given, Literal};
use crate::numbers::{Marks, Queue};
use spv_atoms::Stated;
use spv_term::TermId;
use std::alloc::{AllocError, Global};

// Values of terms. Those that were computed are marked.
#[derive(Drop)]
struct Values {
    marks: Marks,
    values: Vec<Option<bool>>,
}

impl Values {
    // No values.
    fn new(alloc: Global) -> Values {
        Values {
            marks: Marks::new(alloc),
            values: Vec::new(alloc),
        }
    }

    // None is computed yet.
    fn clear(&mut self) {
        self.marks.clear();
    }

    fn has(&self, t: TermId) -> bool {
        self.marks.has(t.0)
    }

    // The value of a term, where one was computed and is known.
    fn get(&self, t: TermId) -> Option<bool> {
        if !self.has(t) {
            return None;
        }
        match self.values.get(t.0 as usize) {
            Some(value) => *value,
            None => None,
        }
    }

    fn set(&mut self, t: TermId, value: Option<bool>) -> Result<(), AllocError> {
        for _ in self.values.len()..t.0 as usize + 1 {
            self.values.push(None)?;
        }
        if let Some(item) = self.values.get_mut(t.0 as usize) {
            *item = value;
        }
        self.marks.add(t.0)?;
        Ok(())
    }
}

/// What evaluations work with: the values of terms, and those that were gone to.
#[derive(Drop)]
pub(crate) struct Notes {
    values: Values,
    visits: Queue,
}

impl Notes {
    /// None of either.
    pub(crate) fn new(alloc: Global) -> Notes {
        Notes {
            values: Values::new(alloc),
            visits: Queue::new(alloc),
        }
    }
}

// Values on a path, where a claim is false.
#[derive(Drop)]
struct Evaluation<'a> {
    connectives: &'a Connectives,
    facts: &'a Facts,
    claim: Literal,
    values: &'a mut Values,
}

impl<'a> Evaluation<'a> {
    // The value that is given to a term: since the claim is false, or by a fact, which is needed where it is another one than that.
    fn given(&self, t: TermId) -> Option<Given> {
        let found = self.facts.given(self.connectives, t);
        if self.claim.formula != t.0 {
            return found;
        }
        let value = !self.claim.value;
        match found {
            Some(given) if given.value != value => Some(given),
            _ => Some(Given { value, fact: 0 }),
        }
    }

    // The value of a term: the given one, else the one that was computed.
    fn value(&self, t: TermId) -> Option<bool> {
        match self.given(t) {
            Some(given) => Some(given.value),
            None => self.values.get(t),
        }
    }

    // The value that comes from the formulas that a term of this shape stands over.
    fn combined(&self, shape: Shape) -> Option<bool> {
        match shape {
            Shape::Not(t) => opposite(self.value(t)),
            Shape::Pair(connective, s, t) => combined(connective, self.value(s), self.value(t)),
            Shape::Other(value) => value,
        }
    }

    // Puts a term behind others, if its value is still to be computed, and says whether it is.
    fn push_open(&self, list: &mut Vec<TermId>, t: TermId) -> Result<bool, AllocError> {
        if self.values.has(t) || self.given(t).is_some() {
            return Ok(false);
        }
        list.push(t)?;
        Ok(true)
    }

    // Puts those formulas behind others that a term of this shape stands over and whose values are still to be computed.
    fn push_inner(&self, list: &mut Vec<TermId>, shape: Shape) -> Result<bool, AllocError> {
        match shape {
            Shape::Not(t) => self.push_open(list, t),
            Shape::Pair(_, s, t) => {
                let first = self.push_open(list, s)?;
                let second = self.push_open(list, t)?;
                Ok(first || second)
            }
            Shape::Other(_) => Ok(false),
        }
    }

    // Computes the value of the last one of these terms, or puts those behind it from which that comes.
    fn compute_last(&mut self, list: &mut Vec<TermId>, t: TermId) -> Result<(), AllocError> {
        let shape = self.connectives.shape(t);
        if self.values.has(t) {
            list.pop();
            return Ok(());
        }
        if self.push_inner(list, shape)? {
            return Ok(());
        }
        list.pop();
        let value = self.combined(shape);
        self.values.set(t, value)
    }

    // Computes the values of these terms, the last one first.
    fn compute_all(&mut self, list: &mut Vec<TermId>) -> Result<(), AllocError> {
        for _ in 0..self.connectives.len().saturating_mul(8) {
            let Some(t) = list.as_slice().last().copied() else {
                break;
            };
            self.compute_last(list, t)?;
        }
        Ok(())
    }

    // Computes the values of the formulas that a term of this shape stands over.
    fn compute(&mut self, alloc: Global, shape: Shape) -> Result<(), AllocError> {
        let mut list = Vec::new(alloc);
        self.push_inner(&mut list, shape)?;
        self.compute_all(&mut list)
    }

    // Computes the value of a term of this shape, and says whether it is known. Where a part of its formulas is enough, the others are not computed.
    fn finds(&mut self, alloc: Global, t: TermId, shape: Shape) -> Result<bool, AllocError> {
        if !self.values.has(t) {
            if self.combined(shape).is_none() {
                self.compute(alloc, shape)?;
            }
            let value = self.combined(shape);
            self.values.set(t, value)?;
        }
        Ok(self.values.get(t).is_some())
    }

    // Whether a term of this shape has another value than the given one, which comes from this one of its formulas.
    fn clashes_by(
        &mut self,
        alloc: Global,
        shape: Shape,
        given: bool,
        from: TermId,
    ) -> Result<bool, AllocError> {
        let mut list = Vec::new(alloc);
        self.push_open(&mut list, from)?;
        self.compute_all(&mut list)?;
        if self.combined(shape) == Some(!given) {
            return Ok(true);
        }
        if is_single(shape, given) {
            return Ok(false);
        }
        self.clashes(alloc, shape, given)
    }

    // Whether a term of this shape has another value than the given one.
    fn clashes(&mut self, alloc: Global, shape: Shape, given: bool) -> Result<bool, AllocError> {
        self.compute(alloc, shape)?;
        Ok(self.combined(shape) == Some(!given))
    }
}

// Whether the value of one formula alone gives a term of this shape the other value than this.
fn is_single(shape: Shape, value: bool) -> bool {
    match shape {
        Shape::Pair(Connective::And, _, _) => value,
        Shape::Pair(Connective::Or | Connective::Implies, _, _) => !value,
        _ => false,
    }
}

// A term whose values clash, and the fact that gives it one of them.
#[derive(Clone, Copy, Debug)]
struct Clash {
    shape: Shape,
    fact: u32,
}

// The term that a claim is about, and the value that it has where the claim is false; none where it need not stand in the arena.
fn claimed_term(connectives: &Connectives, claim: Stated) -> Option<(TermId, bool)> {
    match claim {
        Stated::Is(t, true) => match connectives.shape(t) {
            Shape::Not(u) => Some((u, true)),
            _ => Some((t, false)),
        },
        Stated::Is(t, false) => Some((t, true)),
        Stated::Same(_, _) => None,
    }
}

// What a claim is about, and the value that it has where the claim is false.
fn claimed(connectives: &Connectives, claim: Stated) -> (Shape, bool) {
    match claim {
        Stated::Same(s, t) => (Shape::Pair(Connective::Same, s, t), false),
        Stated::Is(t, _) => match claimed_term(connectives, claim) {
            Some((u, value)) => (connectives.shape(u), value),
            None => (connectives.shape(t), false),
        },
    }
}

// Looks at a connective over a term: whether its values clash. One without a given value is to be gone up to, if it has one where the claim is false: else
// nothing above it has another value than before.
fn look_at(
    alloc: Global,
    evaluation: &mut Evaluation,
    visits: &mut Queue,
    from: TermId,
    t: TermId,
) -> Result<Option<Clash>, AllocError> {
    let shape = evaluation.connectives.shape(t);
    let Some(given) = evaluation.facts.given(evaluation.connectives, t) else {
        if evaluation.finds(alloc, t, shape)? {
            visits.add(t.0)?;
        }
        return Ok(None);
    };
    if evaluation.clashes_by(alloc, shape, given.value, from)? {
        return Ok(Some(Clash {
            shape,
            fact: given.fact,
        }));
    }
    Ok(None)
}

// Looks at the connectives over a term.
fn look_above(
    alloc: Global,
    evaluation: &mut Evaluation,
    visits: &mut Queue,
    from: TermId,
) -> Result<Option<Clash>, AllocError> {
    let connectives = evaluation.connectives;
    for t in connectives.above(from) {
        if let Some(clash) = look_at(alloc, evaluation, visits, from, *t)? {
            return Ok(Some(clash));
        }
    }
    Ok(None)
}

// A clash of values: that of the claim itself, or the next one above it.
fn first_clash(
    alloc: Global,
    evaluation: &mut Evaluation,
    visits: &mut Queue,
    claim: Stated,
) -> Result<Option<Clash>, AllocError> {
    let connectives = evaluation.connectives;
    let (shape, value) = claimed(connectives, claim);
    if evaluation.clashes(alloc, shape, value)? {
        return Ok(Some(Clash { shape, fact: 0 }));
    }
    let Some((t, _)) = claimed_term(connectives, claim) else {
        return Ok(None);
    };
    visits.clear();
    visits.add(t.0)?;
    for _ in 0..connectives.len() {
        let Some(number) = visits.take() else {
            break;
        };
        if let Some(clash) = look_above(alloc, evaluation, visits, TermId(number))? {
            return Ok(Some(clash));
        }
    }
    Ok(None)
}

// A fact is cited, if it is one.
fn cite(cited: &mut Vec<u32>, fact: u32) -> Result<(), AllocError> {
    if fact != 0 {
        cited.push(fact)?;
    }
    Ok(())
}

// The value of a term is wanted: the fact that gives it is cited, or it is to be traced. For one that has a value without facts none is.
fn want(
    evaluation: &Evaluation,
    visits: &mut Queue,
    cited: &mut Vec<u32>,
    t: TermId,
) -> Result<(), AllocError> {
    if let Shape::Other(Some(value)) = evaluation.connectives.shape(t) {
        if evaluation.value(t) == Some(value) {
            return Ok(());
        }
    }
    match evaluation.given(t) {
        Some(given) => cite(cited, given.fact),
        None => visits.add(t.0),
    }
}

// From which of its two formulas the value of a connective is taken: the first, if its value is given, or else both are computed.
fn sources(evaluation: &Evaluation, connective: Connective, s: TermId, t: TermId) -> Sources {
    let early = evaluation.given(s).is_some() || evaluation.given(t).is_none();
    sources_of(connective, evaluation.value(s), evaluation.value(t), early)
}

// The value of what a term of this shape stands over is wanted.
fn trace(
    evaluation: &Evaluation,
    visits: &mut Queue,
    cited: &mut Vec<u32>,
    shape: Shape,
) -> Result<(), AllocError> {
    match shape {
        Shape::Not(t) => want(evaluation, visits, cited, t),
        Shape::Pair(connective, s, t) => match sources(evaluation, connective, s, t) {
            Sources::First => want(evaluation, visits, cited, s),
            Sources::Second => want(evaluation, visits, cited, t),
            Sources::Both => {
                want(evaluation, visits, cited, s)?;
                want(evaluation, visits, cited, t)
            }
        },
        Shape::Other(_) => Ok(()),
    }
}

// The facts from which a clash comes.
fn traced(
    alloc: Global,
    evaluation: &Evaluation,
    visits: &mut Queue,
    clash: Clash,
) -> Result<Vec<u32>, AllocError> {
    let mut cited = Vec::new(alloc);
    cite(&mut cited, clash.fact)?;
    visits.clear();
    trace(evaluation, visits, &mut cited, clash.shape)?;
    for _ in 0..evaluation.connectives.len() {
        let Some(number) = visits.take() else {
            break;
        };
        let shape = evaluation.connectives.shape(TermId(number));
        trace(evaluation, visits, &mut cited, shape)?;
    }
    Ok(cited)
}

/// Facts of a path from which a claim follows by evaluation, by their numbers. None where no such facts are found.
pub(crate) fn support(
    alloc: Global,
    connectives: &Connectives,
    facts: &Facts,
    notes: &mut Notes,
    claim: Stated,
    literal: Literal,
) -> Result<Option<Vec<u32>>, AllocError> {
    notes.values.clear();
    let mut evaluation = Evaluation {
        connectives,
        facts,
        claim: literal,
        values: &mut notes.values,
    };
    match first_clash(alloc, &mut evaluation, &mut notes.visits, claim)? {
        Some(clash) => {
            let mut cited = traced(alloc, &evaluation, &mut notes.visits, clash)?;
            cited.sort()?;
            cited.dedup();
            Ok(Some(cited))
        }
        None => Ok(None),
    }
}
