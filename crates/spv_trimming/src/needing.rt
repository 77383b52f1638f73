// Which facts the end of a path needs, and which parts of splits are kept.

use crate::facts::Facts;
use crate::numbers::{Marks, Queue};
use crate::reading::{End, Reading};
use spv_atoms::{ProofNode, Split};
use std::alloc::{AllocError, Global};
use std::mem;

/// Finds the facts that the end of a path needs.
pub(crate) fn find(needs: &mut Queue, facts: &Facts, end: End) -> Result<(), AllocError> {
    needs.clear();
    need(needs, end.first)?;
    need(needs, end.second.unwrap_or(0))?;
    for _ in 0..facts.len() {
        let Some(number) = needs.take() else {
            break;
        };
        for other in facts.cited(number) {
            need(needs, *other)?;
        }
    }
    Ok(())
}

// A fact is needed, if it is one.
fn need(needs: &mut Queue, number: u32) -> Result<(), AllocError> {
    if number != 0 {
        needs.add(number)?;
    }
    Ok(())
}

/// What is kept of a node.
#[derive(Clone, Copy, Debug)]
pub(crate) enum Kept {
    /// Its steps end the path.
    End(End),
    /// All parts of its split.
    All,
    /// This part of its split alone, in its place.
    One(u32),
    /// Nothing that is seen from here.
    Unknown,
}

// What a node is closed by: what is kept of it, on which nodes' cases that depends, and how many ends it has.
#[derive(Drop)]
struct Closing {
    kept: Kept,
    cases: Vec<u32>,
    ends: u32,
}

// The nodes whose cases are among these facts.
fn cases_among(alloc: Global, facts: &Facts, numbers: &[u32]) -> Result<Vec<u32>, AllocError> {
    let mut cases = Vec::new(alloc);
    for number in numbers {
        if let Some(node) = facts.case(*number) {
            cases.push(node)?;
        }
    }
    Ok(cases)
}

// The part with the fewest ends that does not depend on its own case.
fn spare_part(closings: &[Closing], parts: &[u32]) -> Option<u32> {
    let mut found = None;
    let mut least = u32::MAX;
    for part in parts {
        if let Some(closing) = closings.get(*part as usize) {
            if closing.ends < least && !closing.cases.contains(part) {
                found = Some(*part);
                least = closing.ends;
            }
        }
    }
    found
}

// Puts the cases on which a part depends behind others, but for its own and those that are marked.
fn add_cases(
    marks: &mut Marks,
    cases: &mut Vec<u32>,
    own: &[u32],
    part: u32,
) -> Result<(), AllocError> {
    for case in own {
        if *case != part && marks.add(*case)? {
            cases.push(*case)?;
        }
    }
    Ok(())
}

// A split of which all parts are kept.
fn whole(
    alloc: Global,
    marks: &mut Marks,
    closings: &[Closing],
    parts: &[u32],
) -> Result<Closing, AllocError> {
    let mut cases = Vec::new(alloc);
    let mut ends: u32 = 0;
    for part in parts {
        if let Some(closing) = closings.get(*part as usize) {
            add_cases(marks, &mut cases, closing.cases.as_slice(), *part)?;
            ends = ends.saturating_add(closing.ends);
        }
    }
    Ok(Closing {
        kept: Kept::All,
        cases,
        ends,
    })
}

// A split of which one part is kept, whose cases are taken.
fn single(alloc: Global, closings: &mut Vec<Closing>, part: u32) -> Closing {
    match closings.get_mut(part as usize) {
        Some(closing) => Closing {
            kept: Kept::One(part),
            cases: mem::replace(&mut closing.cases, Vec::new(alloc)),
            ends: closing.ends,
        },
        None => nothing(alloc),
    }
}

fn nothing(alloc: Global) -> Closing {
    Closing {
        kept: Kept::Unknown,
        cases: Vec::new(alloc),
        ends: 0,
    }
}

// What a split is closed by.
fn close_split(
    alloc: Global,
    marks: &mut Marks,
    closings: &mut Vec<Closing>,
    split: &Split,
) -> Result<Closing, AllocError> {
    let parts = split.parts.as_slice();
    match spare_part(closings.as_slice(), parts) {
        Some(part) => Ok(single(alloc, closings, part)),
        None => whole(alloc, marks, closings.as_slice(), parts),
    }
}

// What an end of a path is closed by.
fn close_end(
    alloc: Global,
    needs: &mut Queue,
    facts: &Facts,
    end: End,
) -> Result<Closing, AllocError> {
    find(needs, facts, end)?;
    Ok(Closing {
        kept: Kept::End(end),
        cases: cases_among(alloc, facts, needs.as_slice())?,
        ends: 1,
    })
}

// Nothing is known of so many nodes.
fn none_closed(alloc: Global, count: usize) -> Result<Vec<Closing>, AllocError> {
    let mut closings = Vec::new(alloc);
    for _ in 0..count {
        closings.push(nothing(alloc))?;
    }
    Ok(closings)
}

// What is kept of each node.
fn kept_of(alloc: Global, closings: &[Closing]) -> Result<Vec<Kept>, AllocError> {
    let mut list = Vec::new(alloc);
    for closing in closings {
        list.push(closing.kept)?;
    }
    Ok(list)
}

/// What is kept of each node: a split of which a part does not depend on its own case has that part alone, which then stands in its place.
/// The last node comes first, so that the parts of a split come before it.
pub(crate) fn keep(
    alloc: Global,
    reading: &Reading,
    nodes: &[ProofNode],
) -> Result<Vec<Kept>, AllocError> {
    let mut closings = none_closed(alloc, nodes.len())?;
    let mut needs = Queue::new(alloc);
    let mut marks = Marks::new(alloc);
    for (place, node) in nodes.iter().enumerate().rev() {
        let own = match (reading.ends.get(place), &node.split) {
            (Some(Some(end)), _) => close_end(alloc, &mut needs, &reading.facts, *end)?,
            (_, Some(split)) => {
                marks.clear();
                close_split(alloc, &mut marks, &mut closings, split)?
            }
            _ => nothing(alloc),
        };
        if let Some(closing) = closings.get_mut(place) {
            *closing = own;
        }
    }
    kept_of(alloc, closings.as_slice())
}
