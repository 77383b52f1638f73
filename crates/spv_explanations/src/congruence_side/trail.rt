//! What was told on a path.

ghost use Rattle.std.specs.Prelude.{◌≡◌, ◌⊎◌, ◌<◌, ◌≤◌, ◌++◌, [], ◌∷◌, take, length, true, IfOk, OnOk, OnErr};
ghost use Rattle.spv_term.specs.Arena.{IsArena};
ghost use Rattle.spv_congruence.specs.Keep.{IsNode};
ghost use Rattle.spv_congruence.specs.Told.{IsOf, IsPart, Joins, Undone};
ghost use Rattle.spv_logic.specs.declared.conditions.TermId.{TermId};
ghost use Rattle.spv_derivations.specs.derivation.Derived.{IsTrueTerm, IsFalseTerm};
ghost use Rattle.spv_explanations.specs.congruence_side.Holding.{AddsTerm, Grows, Holds, IsBackedFact, WasSoFar};

use spv_congruence::{Fact, Graph, Mark};
use spv_derivations::derivation::Derivation;
use spv_term::{TermId, Terms};
use std::alloc::{AllocError, Global};

/// What was told on a path: the facts in order, and the graph of what they join and separate.
#[derive(Drop)]
pub struct Trail {
    /// The facts in order.
    pub derivation: Derivation,
    /// The terms in classes.
    pub graph: Graph,
    /// What the graph was told.
    pub facts: Vec<Fact>,
    /// The term TRUE.
    pub truth: TermId,
    /// The term FALSE.
    pub falsity: TermId,
}

/// How far a trail was.
#[derive(Debug, Drop)]
pub struct Level {
    /// How many entries the derivation had.
    pub entries: usize,
    /// How many facts the graph had.
    pub facts: usize,
    /// The mark of the graph.
    pub mark: Mark,
}

// Tells a graph a fact. For want of memory it stays as it was.
fn tell_graph(graph: &mut Graph, fact: Fact) -> Result<(), AllocError>
    requires left { IsNode graph.old.nodes fact.left }
    requires right { IsNode graph.old.nodes fact.right }
    ensures ok { OnOk result (Joins graph.old fact graph.new) }
    ensures err { OnErr result (graph.new ≡ graph.old) }
{
    if fact.equal {
        graph.join(fact.left, fact.right, fact.why)
    } else {
        graph.separate(fact.left, fact.right, fact.why)
    }
}

impl Trail {
    /// The trail on which nothing was told, without terms.
    pub fn new(alloc: Global, truth: TermId, falsity: TermId) -> Trail
        ensures derivation { result.derivation ≡ [] }
        ensures facts { result.facts.items ≡ [] }
        ensures told { result.graph.told ≡ [] }
        ensures nodes { result.graph.nodes ≡ [] }
        ensures truth { result.truth ≡ truth }
        ensures falsity { result.falsity ≡ falsity }
    {
        Trail {
            derivation: Derivation::new(alloc),
            graph: Graph::new(alloc),
            facts: Vec::new(alloc),
            truth,
            falsity,
        }
    }

    /// The trail on which nothing was told, with the terms TRUE and FALSE.
    pub fn open(
        alloc: Global,
        terms: &Terms,
        truth: TermId,
        falsity: TermId,
    ) -> Result<Trail, AllocError>
        requires truth { IsTrueTerm terms.now truth }
        requires falsity { IsFalseTerm terms.now falsity }
        ensures holds { IfOk result (λ tr. Holds terms.now tr) }
        ensures derivation { IfOk result (λ tr. tr.derivation ≡ []) }
        ensures told { IfOk result (λ tr. tr.graph.told ≡ []) }
        ensures truth { IfOk result (λ tr. tr.truth ≡ truth) }
        ensures falsity { IfOk result (λ tr. tr.falsity ≡ falsity) }
        ensures parts { IfOk result (λ tr. (u : TermId) → IsNode tr.graph.nodes u → IsPart terms.now truth u ⊎ IsPart terms.now falsity u) }
    {
        let mut trail = Trail::new(alloc, truth, falsity);
        trail.graph.add(terms, truth)?;
        trail.graph.add(terms, falsity)?;
        Ok(trail)
    }

    /// Adds a term with its parts. For want of memory all is as it was.
    pub fn add(&mut self, terms: &Terms, t: TermId) -> Result<(), AllocError>
        requires holds { Holds terms.now self.old }
        requires within { t.0 < length terms.now.nodes }
        ensures holds { Holds terms.now self.new }
        ensures adds { AddsTerm terms.now t self.old self.new }
        ensures node { OnOk result (IsNode self.new.graph.nodes t) }
    {
        self.graph.add(terms, t)
    }

    /// Tells the graph a fact that the derivation backs. For want of memory all is as it was.
    pub fn enter(&mut self, terms: &Terms, fact: Fact) -> Result<(), AllocError>
        requires holds { Holds terms.now self.old }
        requires left { IsNode self.old.graph.nodes fact.left }
        requires right { IsNode self.old.graph.nodes fact.right }
        requires backed { IsBackedFact terms.now self.old.derivation fact }
        ensures holds { Holds terms.now self.new }
        ensures grows { Grows self.old self.new }
        ensures derivation { self.new.derivation ≡ self.old.derivation }
        ensures told { OnOk result (self.new.graph.told ≡ self.old.graph.told ++ fact ∷ []) }
        ensures err { OnErr result (self.new.graph ≡ self.old.graph) }
    {
        let _ = terms;
        self.facts.reserve(1)?;
        tell_graph(&mut self.graph, fact)?;
        self.facts.push(fact).unwrap();
        Ok(())
    }

    /// How far the trail is.
    pub fn level(&self) -> Level
        ensures entries { result.entries ≡ length self.now.derivation }
        ensures facts { result.facts ≡ length self.now.facts.items }
        ensures mark { result.mark ≡ length self.now.graph.told }
    {
        Level {
            entries: self.derivation.len(),
            facts: self.facts.as_slice().len(),
            mark: self.graph.mark(),
        }
    }

    /// Takes back what was told since a level. It takes no memory.
    pub fn undo(&mut self, level: &Level)
        requires entries { level.now.entries ≤ length self.old.derivation }
        requires facts { level.now.facts ≤ length self.old.graph.told }
        requires mark { level.now.mark ≡ level.now.facts }
        ensures derivation { self.new.derivation ≡ take level.now.entries self.old.derivation }
        ensures graph { Undone self.old.graph level.now.facts self.new.graph }
        ensures facts { self.new.facts.items ≡ take level.now.facts self.old.facts.items }
        ensures truth { self.new.truth ≡ self.old.truth }
        ensures falsity { self.new.falsity ≡ self.old.falsity }
    {
        self.derivation.keep(level.entries);
        self.graph.undo(level.mark);
        self.facts.truncate(level.facts);
    }
}
