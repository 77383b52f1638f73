// A proof that was found is made shorter.

ghost use Rattle.std.specs.Prelude.{◌≡◌, ◌<◌, length, IfOk};
ghost use Rattle.spv_term.specs.Arena.{AllBelow, Extends};
ghost use Rattle.spv_proof_rules.specs.Stand.{IsProof};

use crate::connectives::Connectives;
use crate::facts::Formulas;
use crate::needing::keep;
use crate::placing::{homes_of, places_of};
use crate::reading::{Ground, read};
use crate::testing::proof_of;
use crate::writing::write;
use spv_atoms::{Proof, ProofNode};
use spv_term::{Condition, Terms};
use std::alloc::{AllocError, Global};

// The nodes of a shorter proof. Nothing is said of them: they are tested.
fn shorter(
    alloc: Global,
    ground: &Ground,
    formulas: &mut Formulas,
    nodes: &[ProofNode],
) -> Result<Vec<ProofNode>, AllocError> {
    let reading = read(alloc, ground, formulas, nodes)?;
    let kept = keep(alloc, &reading, nodes)?;
    let places = places_of(alloc, &reading, kept.as_slice(), nodes)?;
    let homes = homes_of(alloc, &reading.facts, places.all.as_slice())?;
    write(alloc, &reading.facts, &homes, &places, nodes)
}

// How often a shorter proof is looked for. A fact that stands above a split may be the fact of one of its cases, which then goes at the next time.
const ROUNDS: u64 = 4;

// The nodes of a shorter proof: a shorter one is looked for again and again, as long as one is found.
fn shortest(
    alloc: Global,
    terms: &Terms,
    condition: &Condition,
    nodes: &[ProofNode],
) -> Result<Vec<ProofNode>, AllocError> {
    let ground = Ground {
        terms,
        condition,
        connectives: Connectives::of(alloc, terms)?,
    };
    let mut formulas = Formulas::of(alloc, terms)?;
    let mut best = shorter(alloc, &ground, &mut formulas, nodes)?;
    for _ in 0..ROUNDS {
        let next = shorter(alloc, &ground, &mut formulas, best.as_slice())?;
        if length_of(next.as_slice()) >= length_of(best.as_slice()) {
            break;
        }
        best = next;
    }
    Ok(best)
}

// How many nodes and steps a proof has.
fn length_of(nodes: &[ProofNode]) -> u64 {
    let mut count: u64 = 0;
    for node in nodes {
        let steps = node.steps.as_slice().len() as u64;
        count = count.saturating_add(steps).saturating_add(1);
    }
    count
}

// How many nodes and steps a proof may have for which a shorter one is looked for: so many are gone over in some seconds.
const GREATEST_LENGTH: u64 = 4_000_000;

/// A proof of a condition: a shorter one, if one is found and the check accepts it, else the given one. In the shorter one evaluations cite the
/// facts from which their values come, each fact is needed by a later one or by an end of a path, splits of which a part does not need its own case
/// have gone, and a fact that several parts of a split need stands above it.
#[tactic(auto, using(spv_term::proofs::ArenaLemmas::growth))]
pub(crate) fn trimmed(
    alloc: Global,
    terms: &mut Terms,
    condition: &Condition,
    proof: Proof,
) -> Result<Proof, AllocError>
    requires given { AllBelow (length terms.old.nodes) condition.now.given }
    requires goal { condition.now.goal.0 < length terms.old.nodes }
    requires proof { IsProof terms.old condition.now proof }
    ensures proof { IfOk result (IsProof terms.new condition.now) }
    ensures grows { Extends terms.old terms.new }
{
    if length_of(proof.nodes()) > GREATEST_LENGTH {
        return Ok(proof);
    }
    let nodes = shortest(alloc, terms, condition, proof.nodes())?;
    let found = proof_of(alloc, terms, condition, nodes)?;
    match found {
        Some(shorter) => Ok(shorter),
        None => Ok(proof),
    }
}
