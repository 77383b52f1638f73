// The nodes of the shorter proof, and at which of them each fact stands.

use crate::facts::Facts;
use crate::needing::{Kept, find};
use crate::numbers::{Numbers, Queue, number_of};
use crate::reading::{End, Reading};
use spv_atoms::ProofNode;
use std::alloc::{AllocError, Global};

/// How a node of the shorter proof goes on behind its facts.
#[derive(Clone, Copy, Debug)]
pub(crate) enum Leads {
    /// The path ends.
    Ends(End),
    /// The split of this node of the longer proof.
    Splits(u32),
    /// That is not seen from here.
    Nowhere,
}

/// A node of the shorter proof: the one above it, the fact of its case, and how it goes on.
#[derive(Clone, Copy, Debug)]
pub(crate) struct Place {
    pub(crate) parent: u32,
    pub(crate) case: u32,
    pub(crate) leads: Leads,
}

/// The nodes of the shorter proof. Beside each node of the longer one stands in which of them it is, by its number from 1; 0 if in none.
#[derive(Drop)]
pub(crate) struct Places {
    pub(crate) all: Vec<Place>,
    pub(crate) within: Numbers,
    below: Numbers,
}

impl Places {
    // No nodes.
    fn new(alloc: Global) -> Places {
        Places {
            all: Vec::new(alloc),
            within: Numbers::new(alloc),
            below: Numbers::new(alloc),
        }
    }

    // Begins a node below the one of this number, in which a node of the longer proof is.
    fn begin(&mut self, node: u32, above: u32, case: u32) -> Result<(), AllocError> {
        self.all.push(Place {
            parent: above.saturating_sub(1),
            case,
            leads: Leads::Nowhere,
        })?;
        self.within.set(node, number_of(self.all.len())?)
    }

    // The node of a number goes on so.
    fn go_on(&mut self, number: u32, leads: Leads) {
        if let Some(place) = self.all.get_mut((number as usize).saturating_sub(1)) {
            place.leads = leads;
        }
    }

    // These nodes of the longer proof are those of cases of the node of a number.
    fn open(&mut self, parts: &[u32], number: u32) -> Result<(), AllocError> {
        for part in parts {
            self.below.set(*part, number)?;
        }
        Ok(())
    }

    // Adds a node of the longer proof, the one above which was added: it goes on with that one's, or begins a node, or is in none.
    fn add(&mut self, node: u32, case: u32, kept: Kept, parts: &[u32]) -> Result<(), AllocError> {
        let above = self.below.at(node);
        if above != 0 {
            self.begin(node, above, case)?;
        }
        let number = self.within.at(node);
        if number == 0 {
            return Ok(());
        }
        match kept {
            Kept::End(end) => {
                self.go_on(number, Leads::Ends(end));
                Ok(())
            }
            Kept::One(part) => self.within.set(part, number),
            Kept::All => {
                self.go_on(number, Leads::Splits(node));
                self.open(parts, number)
            }
            Kept::Unknown => Ok(()),
        }
    }
}

/// The nodes of the shorter proof.
pub(crate) fn places_of(
    alloc: Global,
    reading: &Reading,
    kept: &[Kept],
    nodes: &[ProofNode],
) -> Result<Places, AllocError> {
    let mut places = Places::new(alloc);
    places.begin(0, 0, 0)?;
    for (place, (node, kept)) in nodes.iter().zip(kept.iter()).enumerate() {
        let parts = match &node.split {
            Some(split) => split.parts.as_slice(),
            None => &[],
        };
        let number = number_of(place)?;
        places.add(number, reading.cases.at(number), *kept, parts)?;
    }
    Ok(places)
}

// A walk over the nodes of the shorter proof, and beside each fact the number of the node where it is to stand, from 1.
#[derive(Drop)]
struct Homes {
    open: Numbers,
    path: Vec<u32>,
    homes: Numbers,
}

impl Homes {
    // Goes on to a node.
    fn enter(&mut self, place: u32, parent: u32) -> Result<(), AllocError> {
        for _ in 0..self.path.len() {
            match self.path.as_slice().last().copied() {
                Some(last) if last != parent => {
                    self.open.set(last, 0)?;
                    self.path.pop();
                }
                _ => break,
            }
        }
        self.open.set(place, 1)?;
        self.path.push(place)?;
        Ok(())
    }

    // The lowest node of the path that is this one or above it.
    fn meeting(&self, places: &[Place], place: u32) -> u32 {
        let mut at = place;
        for _ in 0..places.len() {
            if self.open.at(at) == 1 {
                break;
            }
            at = match places.get(at as usize) {
                Some(place) => place.parent,
                None => 0,
            };
        }
        at
    }

    // These facts are needed at a node.
    fn need(
        &mut self,
        places: &[Place],
        facts: &Facts,
        numbers: &[u32],
        place: u32,
    ) -> Result<(), AllocError> {
        for number in numbers {
            if facts.step(*number).is_some() {
                let home = match self.homes.at(*number) {
                    0 => place,
                    home => self.meeting(places, home.saturating_sub(1)),
                };
                self.homes.set(*number, home.saturating_add(1))?;
            }
        }
        Ok(())
    }
}

/// Beside each fact the number of the lowest node of the shorter proof, from 1, that is above all ends of paths which need it; 0 where
/// none does.
pub(crate) fn homes_of(
    alloc: Global,
    facts: &Facts,
    places: &[Place],
) -> Result<Numbers, AllocError> {
    let mut homes = Homes {
        open: Numbers::new(alloc),
        path: Vec::new(alloc),
        homes: Numbers::new(alloc),
    };
    let mut needs = Queue::new(alloc);
    for (place, node) in places.iter().enumerate() {
        let number = number_of(place)?;
        homes.enter(number, node.parent)?;
        if let Leads::Ends(end) = node.leads {
            find(&mut needs, facts, end)?;
            homes.need(places, facts, needs.as_slice(), number)?;
        }
    }
    let Homes { homes, .. } = homes;
    Ok(homes)
}
