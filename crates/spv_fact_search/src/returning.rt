// A proof with other terms, and other numbers of hypotheses.

use crate::images::Images;
use spv_atoms::{ProofNode, Relation, Split, Stated, Step};
use spv_frac::Frac;
use spv_logic::list::List;
use spv_term::TermId;
use std::alloc::{AllocError, Global};

/// The way from a stage back: what its terms become, and the place that each of its hypotheses has among those of the condition.
#[derive(Drop)]
pub(crate) struct Return {
    images: Images,
    places: Vec<usize>,
}

impl Return {
    pub(crate) fn new(images: Images, places: Vec<usize>) -> Return {
        Return { images, places }
    }

    /// What a term becomes.
    pub(crate) fn at(&self, t: TermId) -> TermId {
        self.images.at(t)
    }

    // The number of a hypothesis among the others, from 1; 0 stays 0.
    fn hypothesis(&self, k: u32) -> u32 {
        let Some(before) = k.checked_sub(1) else {
            return 0;
        };
        match self.places.as_slice().get(before as usize) {
            Some(place) => u32::try_from(*place).unwrap_or(u32::MAX).saturating_add(1),
            None => k,
        }
    }

    fn relation(&self, relation: Relation) -> Relation {
        match relation {
            Relation::AtMost(s, t) => Relation::AtMost(self.at(s), self.at(t)),
            Relation::Equal(s, t) => Relation::Equal(self.at(s), self.at(t)),
        }
    }

    fn claim(&self, claim: Stated) -> Stated {
        match claim {
            Stated::Is(t, truth) => Stated::Is(self.at(t), truth),
            Stated::Same(s, t) => Stated::Same(self.at(s), self.at(t)),
        }
    }

    fn step(&self, alloc: Global, step: &Step) -> Result<Step, AllocError> {
        match step {
            Step::Given(k) => Ok(Step::Given(self.hypothesis(*k))),
            Step::Refl(t) => Ok(Step::Refl(self.at(*t))),
            Step::Symm(i) => Ok(Step::Symm(*i)),
            Step::Trans(i, j) => Ok(Step::Trans(*i, *j)),
            Step::Cong(t, u, facts) => {
                let facts = same_numbers(alloc, facts.as_slice())?;
                Ok(Step::Cong(self.at(*t), self.at(*u), facts))
            }
            Step::Linear(relation, first, second) => {
                let first = same_multiples(alloc, first.as_slice())?;
                let second = same_multiples(alloc, second.as_slice())?;
                Ok(Step::Linear(self.relation(*relation), first, second))
            }
            Step::Schema(kind, ts, field) => {
                let list = self.images.list(alloc, ts.as_slice())?;
                Ok(Step::Schema(*kind, list, *field))
            }
            Step::Rule(rule, ts) => {
                let list = self.images.list(alloc, ts.as_slice())?;
                Ok(Step::Rule(*rule, list))
            }
            Step::Eval(claim, facts) => {
                let facts = same_numbers(alloc, facts.as_slice())?;
                Ok(Step::Eval(self.claim(*claim), facts))
            }
            Step::Contra(i, j) => Ok(Step::Contra(*i, *j)),
        }
    }

    fn split(&self, alloc: Global, split: &Option<Split>) -> Result<Option<Split>, AllocError> {
        match split {
            None => Ok(None),
            Some(split) => {
                let parts = same_numbers(alloc, split.parts.as_slice())?;
                Ok(Some(Split {
                    atom: self.at(split.atom),
                    parts,
                }))
            }
        }
    }

    fn node(&self, alloc: Global, node: &ProofNode) -> Result<ProofNode, AllocError> {
        let mut steps = List::new(alloc);
        for step in node.steps.as_slice() {
            steps.push(self.step(alloc, step)?)?;
        }
        let split = self.split(alloc, &node.split)?;
        Ok(ProofNode { steps, split })
    }

    /// The nodes of a proof with what its terms become.
    pub(crate) fn nodes(
        &self,
        alloc: Global,
        nodes: &[ProofNode],
    ) -> Result<Vec<ProofNode>, AllocError> {
        let mut list = Vec::new(alloc);
        for node in nodes {
            list.push(self.node(alloc, node)?)?;
        }
        Ok(list)
    }
}

fn same_numbers(alloc: Global, numbers: &[u32]) -> Result<List<u32>, AllocError> {
    let mut list = List::new(alloc);
    for number in numbers {
        list.push(*number)?;
    }
    Ok(list)
}

fn same_multiples(
    alloc: Global,
    multiples: &[(Frac, u32)],
) -> Result<List<(Frac, u32)>, AllocError> {
    let mut list = List::new(alloc);
    for multiple in multiples {
        list.push(*multiple)?;
    }
    Ok(list)
}
