// The shorter proof is written: each fact at its node, and all facts with the numbers that they have there.

use crate::facts::Facts;
use crate::numbers::{Numbers, number_of};
use crate::placing::{Leads, Place, Places};
use crate::reading::End;
use spv_atoms::copies::{optional_numbered, renumbered};
use spv_atoms::{ProofNode, Split, Step};
use spv_logic::list::List;
use std::alloc::{AllocError, Global};

// The facts that stand at each node, in the order of their numbers: the first one at a node, and the next one behind each.
#[derive(Drop)]
struct Standing {
    first: Numbers,
    next: Numbers,
}

// The facts that stand at each node, the last one first put there.
fn standing_of(alloc: Global, homes: &Numbers, count: usize) -> Result<Standing, AllocError> {
    let mut standing = Standing {
        first: Numbers::new(alloc),
        next: Numbers::new(alloc),
    };
    for k in 0..count {
        let number = number_of(count - k)?;
        let home = homes.at(number);
        if home != 0 {
            let behind = standing.first.at(home);
            standing.next.set(number, behind)?;
            standing.first.set(home, number)?;
        }
    }
    Ok(standing)
}

// A walk over the nodes of the shorter proof: the numbers of facts, and beside each node how many facts its path has.
#[derive(Drop)]
struct Writer<'a> {
    facts: &'a Facts,
    nodes: &'a [ProofNode],
    places: &'a Places,
    standing: Standing,
    written: Numbers,
    counts: Numbers,
}

impl<'a> Writer<'a> {
    // A step as it is written: the facts that an evaluation cites stand in order.
    fn step(&self, alloc: Global, step: &Step) -> Result<Step, AllocError> {
        match renumbered(alloc, &self.written, step)? {
            Step::Eval(claim, numbers) => {
                let mut sorted = numbers.as_slice().to_vec(alloc)?;
                sorted.sort()?;
                Ok(Step::Eval(claim, List::from_vec(sorted)))
            }
            step => Ok(step),
        }
    }

    // Puts the facts of a node behind one another, and gives so many numbers.
    fn write_facts(
        &mut self,
        alloc: Global,
        steps: &mut Vec<Step>,
        place: u32,
        count: u32,
    ) -> Result<u32, AllocError> {
        let mut count = count;
        let mut number = self.standing.first.at(place.saturating_add(1));
        for _ in 0..self.facts.len() {
            let Some(step) = self.facts.step(number) else {
                break;
            };
            steps.push(self.step(alloc, step)?)?;
            count = count.saturating_add(1);
            self.written.set(number, count)?;
            number = self.standing.next.at(number);
        }
        Ok(count)
    }

    // How many facts there are when a node has begun: its case has a number.
    fn begin(&mut self, place: u32, node: Place) -> Result<u32, AllocError> {
        if place == 0 {
            return Ok(0);
        }
        let count = self.counts.at(node.parent).saturating_add(1);
        self.written.set(node.case, count)?;
        Ok(count)
    }

    // The end of a path.
    fn end(&self, end: End) -> Step {
        let first = self.written.at(end.first);
        Step::Contra(first, optional_numbered(&self.written, end.second))
    }

    // The split of a node of the longer proof, over the nodes of the shorter one.
    fn split(&self, alloc: Global, node: u32) -> Result<Option<Split>, AllocError> {
        let Some(split) = self
            .nodes
            .get(node as usize)
            .and_then(|node| node.split.as_ref())
        else {
            return Ok(None);
        };
        let mut parts = Vec::new(alloc);
        for part in split.parts.as_slice() {
            parts.push(self.places.within.at(*part).saturating_sub(1))?;
        }
        Ok(Some(Split {
            atom: split.atom,
            parts: List::from_vec(parts),
        }))
    }

    // Writes a node.
    fn node(&mut self, alloc: Global, place: u32, node: Place) -> Result<ProofNode, AllocError> {
        let mut steps = Vec::new(alloc);
        let begun = self.begin(place, node)?;
        let count = self.write_facts(alloc, &mut steps, place, begun)?;
        self.counts.set(place, count)?;
        let split = match node.leads {
            Leads::Ends(end) => {
                steps.push(self.end(end))?;
                None
            }
            Leads::Splits(node) => self.split(alloc, node)?,
            Leads::Nowhere => None,
        };
        Ok(ProofNode {
            steps: List::from_vec(steps),
            split,
        })
    }
}

/// The nodes of the shorter proof.
pub(crate) fn write(
    alloc: Global,
    facts: &Facts,
    homes: &Numbers,
    places: &Places,
    nodes: &[ProofNode],
) -> Result<Vec<ProofNode>, AllocError> {
    let mut writer = Writer {
        facts,
        nodes,
        places,
        standing: standing_of(alloc, homes, facts.len())?,
        written: Numbers::new(alloc),
        counts: Numbers::new(alloc),
    };
    let mut list = Vec::new(alloc);
    for (place, node) in places.all.as_slice().iter().enumerate() {
        list.push(writer.node(alloc, number_of(place)?, *node)?)?;
    }
    Ok(list)
}
