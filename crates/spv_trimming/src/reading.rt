// A proof is read: which facts its paths have, each once, and from which of them they end.

use crate::citing::cited;
use crate::connectives::Connectives;
use crate::evaluating::{Notes, support};
use crate::facts::{Facts, Formula, Formulas, Literal, Pair, Source, stated_pair};
use crate::numbers::{Numbers, number_of};
use spv_atoms::copies::{optional_numbered, renumbered};
use spv_atoms::{ProofNode, Stated, Step};
use spv_logic::list::List;
use spv_term::{Condition, Sort, TermId, Terms};
use std::alloc::{AllocError, Global};

/// The facts from which a path ends.
#[derive(Clone, Copy, Debug)]
pub(crate) struct End {
    pub(crate) first: u32,
    pub(crate) second: Option<u32>,
}

/// What was read of a proof: its facts; beside each node the one above it, the fact of its case, and where its steps end the path how they
/// do.
#[derive(Drop)]
pub(crate) struct Reading {
    pub(crate) facts: Facts,
    pub(crate) parents: Numbers,
    pub(crate) cases: Numbers,
    pub(crate) ends: Vec<Option<End>>,
}

/// Beside each node of a proof the one above it, and which of its cases the node is.
#[derive(Drop)]
struct Places {
    parents: Numbers,
    parts: Numbers,
}

// The places of a proof's nodes.
fn places_of(alloc: Global, nodes: &[ProofNode]) -> Result<Places, AllocError> {
    let mut places = Places {
        parents: Numbers::new(alloc),
        parts: Numbers::new(alloc),
    };
    for (node, split) in nodes.iter().map(|node| &node.split).enumerate() {
        if let Some(split) = split {
            for (part, place) in split.parts.as_slice().iter().enumerate() {
                places.parents.set(*place, number_of(node)?)?;
                places.parts.set(*place, number_of(part)?)?;
            }
        }
    }
    Ok(places)
}

fn is_number(terms: &Terms, t: TermId) -> bool {
    t.0 < terms.len() && matches!(terms.sort(t), Sort::Int)
}

// The formula of a case of an atom.
fn case_of(terms: &Terms, t: TermId, part: u32) -> Formula {
    match stated_pair(terms, Formula::Term(t)) {
        Some(Pair::Equation(s, u)) if is_number(terms, s) => match part {
            0 => Formula::Term(t),
            1 => Formula::Pair(Pair::Below(s, u)),
            _ => Formula::Pair(Pair::Below(u, s)),
        },
        _ => match part {
            0 => Formula::Term(t),
            _ => Formula::Negation(t),
        },
    }
}

// A node of the path, and how many facts the path has behind it.
#[derive(Clone, Copy, Debug)]
struct Opened {
    node: u32,
    count: usize,
}

/// What a proof is about: the condition, over an arena with these connectives.
#[derive(Drop)]
pub(crate) struct Ground<'a> {
    pub(crate) terms: &'a Terms,
    pub(crate) condition: &'a Condition,
    pub(crate) connectives: Connectives,
}

// A walk over a proof.
#[derive(Drop)]
struct Walk<'a> {
    ground: &'a Ground<'a>,
    formulas: &'a mut Formulas,
    notes: Notes,
    places: Places,
    facts: Facts,
    path: Numbers,
    opened: Vec<Opened>,
}

impl<'a> Walk<'a> {
    // Goes back to the node above one.
    fn go_back(&mut self, parent: u32) -> Result<(), AllocError> {
        for _ in 0..self.opened.len() {
            match self.opened.as_slice().last().copied() {
                Some(last) if last.node != parent => {
                    self.facts.leave(last.node)?;
                    self.opened.pop();
                }
                Some(last) => {
                    self.path.truncate(last.count);
                    return Ok(());
                }
                None => return Ok(()),
            }
        }
        Ok(())
    }

    // Begins with a node: its case is a fact of the path. The answer is the number of that fact; 0 where it was known before, and for the root.
    fn begin(&mut self, alloc: Global, nodes: &[ProofNode], node: u32) -> Result<u32, AllocError> {
        let parent = self.places.parents.at(node);
        self.go_back(parent)?;
        self.facts.enter(node)?;
        if node == 0 {
            return Ok(0);
        }
        let Some(split) = nodes
            .get(parent as usize)
            .and_then(|node| node.split.as_ref())
        else {
            return Ok(0);
        };
        let formula = case_of(self.ground.terms, split.atom, self.places.parts.at(node));
        let literal = self.formulas.literal(&self.ground.connectives, formula)?;
        let known = self.facts.number(literal);
        if known != 0 {
            self.path.push(known)?;
            return Ok(0);
        }
        let source = Source {
            step: None,
            cited: Vec::new(alloc),
            scope: node,
        };
        let number = self.add(formula, literal, source)?;
        self.path.push(number)?;
        Ok(number)
    }

    // Adds a fact.
    fn add(
        &mut self,
        formula: Formula,
        literal: Literal,
        source: Source,
    ) -> Result<u32, AllocError> {
        let said = self.formulas.said(self.ground.terms, formula, literal);
        self.facts.add(said, source)
    }

    // An evaluation that cites what it needs, by the numbers of facts in the list of all.
    fn evaluation(
        &mut self,
        alloc: Global,
        claim: Stated,
        literal: Literal,
        step: &Step,
    ) -> Result<Step, AllocError> {
        let found = support(
            alloc,
            &self.ground.connectives,
            &self.facts,
            &mut self.notes,
            claim,
            literal,
        )?;
        match found {
            Some(numbers) => Ok(Step::Eval(claim, List::from_vec(numbers))),
            None => renumbered(alloc, &self.path, step),
        }
    }

    // A step in which facts have their numbers in the list of all.
    fn own_step(
        &mut self,
        alloc: Global,
        literal: Literal,
        step: &Step,
    ) -> Result<Step, AllocError> {
        match step {
            Step::Eval(claim, _) => self.evaluation(alloc, *claim, literal, step),
            _ => renumbered(alloc, &self.path, step),
        }
    }

    // Where the fact of a step comes from.
    fn source(&self, alloc: Global, step: Step) -> Result<Source, AllocError> {
        let cited = cited(alloc, &step)?;
        let mut scope = 0;
        for number in cited.as_slice() {
            scope = self.facts.scope(*number).max(scope);
        }
        Ok(Source {
            step: Some(step),
            cited,
            scope,
        })
    }

    // The number of the fact that a step adds, which may be there already; 0 for none.
    fn derive(&mut self, alloc: Global, step: &Step) -> Result<u32, AllocError> {
        let Some(formula) = self.facts.formula(self.ground.condition, &self.path, step) else {
            return Ok(0);
        };
        let literal = self.formulas.literal(&self.ground.connectives, formula)?;
        let number = self.facts.number(literal);
        if number != 0 {
            return Ok(number);
        }
        let own = self.own_step(alloc, literal, step)?;
        let source = self.source(alloc, own)?;
        self.add(formula, literal, source)
    }

    // Goes over the steps of a node: each adds a fact to the path, or ends it.
    fn go_over(&mut self, alloc: Global, steps: &[Step]) -> Result<Option<End>, AllocError> {
        for step in steps {
            if let Step::Contra(i, j) = step {
                return Ok(Some(End {
                    first: self.path.at(*i),
                    second: optional_numbered(&self.path, *j),
                }));
            }
            let number = self.derive(alloc, step)?;
            self.path.push(number)?;
        }
        Ok(None)
    }

    // Goes over a node.
    fn visit(
        &mut self,
        alloc: Global,
        nodes: &[ProofNode],
        place: usize,
    ) -> Result<(u32, Option<End>), AllocError> {
        let node = number_of(place)?;
        let case = self.begin(alloc, nodes, node)?;
        let end = match nodes.get(place) {
            Some(own) => self.go_over(alloc, own.steps.as_slice())?,
            None => None,
        };
        self.opened.push(Opened {
            node,
            count: self.path.len(),
        })?;
        Ok((case, end))
    }
}

/// Reads a proof.
pub(crate) fn read(
    alloc: Global,
    ground: &Ground,
    formulas: &mut Formulas,
    nodes: &[ProofNode],
) -> Result<Reading, AllocError> {
    let mut path = Numbers::new(alloc);
    path.push(0)?;
    let mut walk = Walk {
        ground,
        formulas,
        notes: Notes::new(alloc),
        places: places_of(alloc, nodes)?,
        facts: Facts::new(alloc),
        path,
        opened: Vec::new(alloc),
    };
    let mut cases = Numbers::new(alloc);
    let mut ends = Vec::new(alloc);
    for place in 0..nodes.len() {
        let (case, end) = walk.visit(alloc, nodes, place)?;
        cases.set(number_of(place)?, case)?;
        ends.push(end)?;
    }
    let Walk { places, facts, .. } = walk;
    Ok(Reading {
        facts,
        parents: places.parents,
        cases,
        ends,
    })
}
