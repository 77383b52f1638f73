// How long a page is at least, reckoned over terms that an arena has once. So a page that no memory holds is not begun.

use spv_atoms::{Proof, ProofNode, Relation, Stated, Step};
use spv_reports::Report;
use spv_term::{Condition, TermId, Terms};
use spv_verdicts::answers::{Decided, Limit, Unproved, Verdict, Wide};
use std::alloc::{AllocError, Global};

/// The most bytes that a page has: 4 GiB.
const MOST: u64 = 1 << 32;

// How many bytes each term of an arena takes at least where it is printed, by its number: one for its word, and where it has arguments two
// brackets, and a blank and the argument for each. As many as there are numbers stand for more.
#[derive(Drop)]
struct Lengths {
    of: Vec<u64>,
}

impl Lengths {
    fn new(alloc: Global, terms: &Terms) -> Result<Lengths, AllocError> {
        let mut lengths = Lengths {
            of: Vec::new(alloc),
        };
        for number in 0..terms.len() {
            let args = terms.node(TermId(number)).args.as_slice();
            let brackets = if args.is_empty() { 1 } else { 3 };
            let length = lengths.behind(brackets, args);
            lengths.of.push(length)?;
        }
        Ok(lengths)
    }

    // What comes with a term, behind a blank, where so many bytes come in front of it.
    fn behind_one(&self, before: u64, t: TermId) -> u64 {
        let own = self.of.get(t.0 as usize).copied().unwrap_or(0);
        before.saturating_add(1).saturating_add(own)
    }

    // The same of terms, one after the other.
    fn behind(&self, before: u64, ts: &[TermId]) -> u64 {
        let mut length = before;
        for t in ts {
            length = self.behind_one(length, *t);
        }
        length
    }

    // The same of conditions.
    fn behind_claims(&self, before: u64, conditions: &[Condition]) -> u64 {
        let mut length = before;
        for condition in conditions {
            length = self.behind(length, condition.given.as_slice());
            length = self.behind_one(length, condition.goal);
        }
        length
    }

    // The same of what falsifies a condition.
    fn behind_table(&self, before: u64, u: &Unproved) -> u64 {
        let mut length = before;
        for row in u.branch.as_slice() {
            length = self.behind_one(length, row.0);
        }
        for row in u.table.values.as_slice() {
            length = self.behind_one(length, row.0);
        }
        for instance in u.instances.as_slice() {
            length = self.behind(length, instance.values.as_slice());
        }
        length
    }

    // The same of a step.
    fn behind_step(&self, before: u64, step: &Step) -> u64 {
        match step {
            Step::Refl(t) | Step::Eval(Stated::Is(t, _), _) => self.behind_one(before, *t),
            Step::Cong(s, t, _)
            | Step::Linear(Relation::AtMost(s, t), _, _)
            | Step::Linear(Relation::Equal(s, t), _, _)
            | Step::Eval(Stated::Same(s, t), _) => {
                self.behind_one(self.behind_one(before, *s), *t)
            }
            Step::Schema(_, ts, _) | Step::Rule(_, ts) => self.behind(before, ts.as_slice()),
            _ => before,
        }
    }

    // The same of a node of a proof.
    fn behind_node(&self, before: u64, node: &ProofNode) -> u64 {
        let mut length = before;
        for step in node.steps.as_slice() {
            length = self.behind_step(length, step);
        }
        match &node.split {
            Some(split) => self.behind_one(length, split.atom),
            None => length,
        }
    }

    // The same of a proof.
    fn behind_proof(&self, before: u64, proof: &Proof) -> u64 {
        let mut length = before;
        for node in proof.nodes() {
            length = self.behind_node(length, node);
        }
        length
    }
}

// What comes with a verdict, where so many bytes come in front of it; with its proof where proofs are wanted.
fn behind_verdict(
    alloc: Global,
    before: u64,
    decided: &Decided,
    proofs: bool,
) -> Result<u64, AllocError> {
    match &decided.verdict {
        Verdict::Proved(proof) if proofs => {
            Ok(Lengths::new(alloc, &decided.terms)?.behind_proof(before, proof))
        }
        Verdict::Unproved(u) => Ok(Lengths::new(alloc, &decided.terms)?.behind_table(before, u)),
        Verdict::GaveUp(_, Limit::Number(Wide::Form(t))) => {
            Ok(Lengths::new(alloc, &decided.terms)?.behind_one(before, *t))
        }
        _ => Ok(before),
    }
}

// Whether a page has too many bytes with these verdicts, where so many bytes come in front of them.
fn are_too_long(
    alloc: Global,
    before: u64,
    verdicts: &[Decided],
    proofs: bool,
) -> Result<bool, AllocError> {
    let mut length = before;
    for decided in verdicts {
        length = behind_verdict(alloc, length, decided, proofs)?;
    }
    Ok(length > MOST)
}

/// Whether the page of a report would have more bytes than a page has.
pub(crate) fn is_too_long(alloc: Global, report: &Report) -> Result<bool, AllocError> {
    let claims = Lengths::new(alloc, report.terms())?;
    let length = claims.behind_claims(0, report.conditions());
    are_too_long(alloc, length, report.verdicts(), report.proofs())
}

/// The same of a page that has no hypotheses, goals and proofs, but a line for each condition.
pub(crate) fn are_lines_too_long(alloc: Global, report: &Report) -> Result<bool, AllocError> {
    are_too_long(alloc, 0, report.verdicts(), false)
}
