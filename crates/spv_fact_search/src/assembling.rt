// Proofs that are put together of others. Nothing is said of what comes of it: it is tested.

use crate::claims::{Claim, Said};
use spv_atoms::{ProofNode, Split, Stated, Step};
use spv_frac::Frac;
use spv_logic::list::List;
use spv_term::{Condition, TermId};
use std::alloc::{AllocError, Global};

/// Where a fact comes from that a part of a proof has as a hypothesis.
#[derive(Clone, Copy, Debug)]
pub(crate) enum Source {
    /// It is the fact of this number.
    Fact(u32),
    /// It is the hypothesis of this number, from 1; for 0 that the goal is false.
    Given(u32),
    /// It follows from the hypothesis of this number.
    Follows(Claim, u32),
}

/// A split whose cases are written one by one.
#[derive(Clone, Copy, Debug)]
pub(crate) struct Fork {
    place: usize,
    facts: u32,
}

/// A proof of which some nodes are written.
#[derive(Drop)]
pub(crate) struct Assembly {
    nodes: Vec<ProofNode>,
    // How many facts there are on the path of the last node.
    facts: u32,
}

// Where a case of a part begins: how many facts the part has there, and how many there are on the whole path.
#[derive(Clone, Copy)]
struct Entry {
    known: usize,
    facts: u32,
}

fn empty_node(alloc: Global) -> ProofNode {
    ProofNode {
        steps: List::new(alloc),
        split: None,
    }
}

// The number that a fact of a part has; 0 stays 0.
fn number(facts: &[u32], own: u32) -> u32 {
    let Some(before) = own.checked_sub(1) else {
        return 0;
    };
    facts.get(before as usize).copied().unwrap_or(u32::MAX)
}

fn numbers(alloc: Global, facts: &[u32], own: &[u32]) -> Result<List<u32>, AllocError> {
    let mut list = List::new(alloc);
    for k in own {
        list.push(number(facts, *k))?;
    }
    Ok(list)
}

fn multiples(
    alloc: Global,
    facts: &[u32],
    own: &[(Frac, u32)],
) -> Result<List<(Frac, u32)>, AllocError> {
    let mut list = List::new(alloc);
    for multiple in own {
        list.push((multiple.0, number(facts, multiple.1)))?;
    }
    Ok(list)
}

fn same_terms(alloc: Global, own: &[TermId]) -> Result<List<TermId>, AllocError> {
    let mut list = List::new(alloc);
    for t in own {
        list.push(*t)?;
    }
    Ok(list)
}

// A step of a part with the numbers that its facts have.
fn renumbered(alloc: Global, step: &Step, facts: &[u32]) -> Result<Step, AllocError> {
    match step {
        Step::Given(k) => Ok(Step::Given(*k)),
        Step::Refl(t) => Ok(Step::Refl(*t)),
        Step::Symm(i) => Ok(Step::Symm(number(facts, *i))),
        Step::Trans(i, j) => Ok(Step::Trans(number(facts, *i), number(facts, *j))),
        Step::Cong(t, u, own) => {
            let list = numbers(alloc, facts, own.as_slice())?;
            Ok(Step::Cong(*t, *u, list))
        }
        Step::Linear(relation, first, second) => {
            let first = multiples(alloc, facts, first.as_slice())?;
            let second = multiples(alloc, facts, second.as_slice())?;
            Ok(Step::Linear(*relation, first, second))
        }
        Step::Schema(kind, ts, field) => {
            let list = same_terms(alloc, ts.as_slice())?;
            Ok(Step::Schema(*kind, list, *field))
        }
        Step::Rule(rule, ts) => {
            let list = same_terms(alloc, ts.as_slice())?;
            Ok(Step::Rule(*rule, list))
        }
        Step::Eval(claim, own) => {
            let list = numbers(alloc, facts, own.as_slice())?;
            Ok(Step::Eval(*claim, list))
        }
        Step::Contra(i, other) => Ok(Step::Contra(
            number(facts, *i),
            match other {
                Some(j) => Some(number(facts, *j)),
                None => None,
            },
        )),
    }
}

/// The number of a hypothesis at a place, from 1.
pub(crate) fn number_at(place: usize) -> u32 {
    u32::try_from(place).unwrap_or(u32::MAX).saturating_add(1)
}

/// Where a claim comes from that a hypothesis of a condition says.
pub(crate) fn source_of(condition: &Condition, said: Said) -> Source {
    let number = number_at(said.place);
    match condition.given.as_slice().get(said.place) {
        Some(f) if said.claim.truth && *f == said.claim.term => Source::Given(number),
        _ => Source::Follows(said.claim, number),
    }
}

impl Assembly {
    /// A proof of which the root alone is there, without steps.
    pub(crate) fn new(alloc: Global) -> Result<Assembly, AllocError> {
        let mut nodes = Vec::new(alloc);
        nodes.push(empty_node(alloc))?;
        Ok(Assembly { nodes, facts: 0 })
    }

    /// The nodes.
    pub(crate) fn into_nodes(self) -> Vec<ProofNode> {
        self.nodes
    }

    /// How many splits there are.
    pub(crate) fn splits(&self) -> u64 {
        let mut count: u64 = 0;
        for node in self.nodes.as_slice() {
            if let Some(_) = &node.split {
                count = count.saturating_add(1);
            }
        }
        count
    }

    // Puts a step behind those of the last node.
    fn push(&mut self, step: Step) -> Result<(), AllocError> {
        let last = self.nodes.len().saturating_sub(1);
        if let Some(node) = self.nodes.get_mut(last) {
            node.steps.push(step)?;
        }
        Ok(())
    }

    /// Puts a step that adds a fact behind those of the last node; the number of this fact.
    pub(crate) fn add(&mut self, step: Step) -> Result<u32, AllocError> {
        self.push(step)?;
        self.facts = self.facts.saturating_add(1);
        Ok(self.facts)
    }

    /// The path of the last node ends by a fact that is never true.
    pub(crate) fn end(&mut self, fact: u32) -> Result<(), AllocError> {
        self.push(Step::Contra(fact, None))
    }

    /// Puts in what evaluates from facts; its number.
    pub(crate) fn evaluate(&mut self, claim: Stated, facts: List<u32>) -> Result<u32, AllocError> {
        self.add(Step::Eval(claim, facts))
    }

    /// The number of a fact that comes from somewhere.
    pub(crate) fn fact_from(&mut self, alloc: Global, source: Source) -> Result<u32, AllocError> {
        match source {
            Source::Fact(number) => Ok(number),
            Source::Given(k) => self.add(Step::Given(k)),
            Source::Follows(claim, k) => {
                let whole = self.add(Step::Given(k))?;
                let mut cites = List::new(alloc);
                cites.push(whole)?;
                self.evaluate(Stated::Is(claim.term, claim.truth), cites)
            }
        }
    }

    /// Puts in that an equation is false, whose sides a fact puts in order: it equals FALSE. The number of the last fact.
    pub(crate) fn deny(
        &mut self,
        alloc: Global,
        equation: TermId,
        order: u32,
        falsity: TermId,
    ) -> Result<u32, AllocError> {
        let mut cites = List::new(alloc);
        cites.push(order)?;
        let equal = self.evaluate(Stated::Same(equation, falsity), cites)?;
        let mut cites = List::new(alloc);
        cites.push(equal)?;
        self.evaluate(Stated::Is(equation, false), cites)
    }

    /// The last node splits on an atom.
    pub(crate) fn split(&mut self, alloc: Global, atom: TermId) -> Fork {
        let place = self.nodes.len().saturating_sub(1);
        if let Some(node) = self.nodes.get_mut(place) {
            node.split = Some(Split {
                atom,
                parts: List::new(alloc),
            });
        }
        Fork {
            place,
            facts: self.facts,
        }
    }

    /// The next case of a split, in a node of its own behind all others; the number of the fact that the case is.
    pub(crate) fn case(&mut self, alloc: Global, fork: Fork) -> Result<u32, AllocError> {
        let next = u32::try_from(self.nodes.len()).unwrap_or(u32::MAX);
        if let Some(node) = self.nodes.get_mut(fork.place) {
            if let Some(split) = &mut node.split {
                split.parts.push(next)?;
            }
        }
        self.nodes.push(empty_node(alloc))?;
        self.facts = fork.facts.saturating_add(1);
        Ok(self.facts)
    }

    // Puts a step of a part behind those of the last node.
    fn embed_step(
        &mut self,
        alloc: Global,
        step: &Step,
        facts: &mut Vec<u32>,
        sources: &[Source],
    ) -> Result<(), AllocError> {
        let own = renumbered(alloc, step, facts.as_slice())?;
        match own {
            Step::Given(k) => {
                let source = sources.get(k as usize).copied().unwrap_or(Source::Given(k));
                let number = self.fact_from(alloc, source)?;
                facts.push(number)?;
            }
            Step::Contra(i, other) => self.push(Step::Contra(i, other))?,
            other => {
                let number = self.add(other)?;
                facts.push(number)?;
            }
        }
        Ok(())
    }

    // The last node splits as one of a part does, whose root stands at this place.
    fn embed_split(&mut self, alloc: Global, split: &Split, root: usize) -> Result<(), AllocError> {
        let before = u32::try_from(root).unwrap_or(u32::MAX);
        let mut parts = List::new(alloc);
        for place in split.parts.as_slice() {
            parts.push(place.saturating_add(before))?;
        }
        let last = self.nodes.len().saturating_sub(1);
        if let Some(node) = self.nodes.get_mut(last) {
            node.split = Some(Split {
                atom: split.atom,
                parts,
            });
        }
        Ok(())
    }

    /// Puts a proof of a part in at the last node, whose path it closes: for each of its hypotheses, by its number, it is told where it comes from.
    pub(crate) fn embed(
        &mut self,
        alloc: Global,
        nodes: &[ProofNode],
        sources: &[Source],
    ) -> Result<(), AllocError> {
        let root = self.nodes.len().saturating_sub(1);
        let mut facts = Vec::new(alloc);
        let mut open: Vec<Entry> = Vec::new(alloc);
        for (place, node) in nodes.iter().enumerate() {
            if place > 0 {
                let Some(entry) = open.pop() else {
                    return Ok(());
                };
                facts.truncate(entry.known);
                self.nodes.push(empty_node(alloc))?;
                self.facts = entry.facts.saturating_add(1);
                facts.push(self.facts)?;
            }
            for step in node.steps.as_slice() {
                self.embed_step(alloc, step, &mut facts, sources)?;
            }
            if let Some(split) = &node.split {
                self.embed_split(alloc, split, root)?;
                for _ in split.parts.as_slice() {
                    open.push(Entry {
                        known: facts.len(),
                        facts: self.facts,
                    })?;
                }
            }
        }
        Ok(())
    }
}
