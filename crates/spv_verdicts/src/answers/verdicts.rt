// Verdicts, and what was decided.

use crate::answers::trees::SplitTree;
use spv_atoms::Proof;
use spv_frac::{Frac, Op};
use spv_logic::list::List;
use spv_simplex::Evidence;
use spv_table::Table;
use spv_term::{Condition, TermId, Terms};

/// A number that does not fit.
#[derive(Debug, Drop)]
pub enum Wide {
    /// A form of this relation has one.
    Form(TermId),
    /// An operation of a check of the tableau: the evidence of the check.
    Pivot(Evidence),
    /// An operation on these two fractions in the check of a sum of this proof. No search comes to it, but a recheck may.
    Sum(Proof, Op, Frac, Frac),
    /// An operation on these two fractions, at this term, when it is evaluated in a table.
    Value(Table, TermId, Op, Frac, Frac),
}

/// An instance of a rule: the rule's number, from 1, and a term for each of its variables, in the order in which its trigger first names
/// them.
#[derive(Debug, Drop)]
pub struct Instance {
    /// The rule's number.
    pub rule: u32,
    /// The terms.
    pub values: List<TermId>,
}

/// A round of a search with rules: a table in which all that was known held and the goal did not, and what it called for.
#[derive(Debug, Drop)]
pub struct Round {
    /// The table.
    pub table: Table,
    /// The instances that were added for it, of which there is one at least.
    pub members: List<Instance>,
}

/// Why a search gave up.
#[derive(Debug, Drop)]
pub enum Limit {
    /// It made as many splits as it may: its tree.
    Splits(SplitTree),
    /// Its rounds added more instances than it may.
    Instances,
    /// A number does not fit.
    Number(Wide),
    /// A check of the tableau made as many steps as it may: its evidence.
    Pivots(Evidence),
    /// There would be more terms than so many.
    Terms(u64),
}

/// What shows that a condition does not follow.
#[derive(Debug, Drop)]
pub struct Unproved {
    /// The atoms of the condition, and which of them the table makes true.
    pub branch: List<(TermId, bool)>,
    /// A table in which each hypothesis is true and the goal is false.
    pub table: Table,
    /// The instances of rules that were added: none where there are no rules.
    pub instances: List<Instance>,
}

/// What a search for a proof of a condition came to.
#[derive(Debug, Drop)]
pub enum Verdict {
    /// The condition is true: its proof.
    Proved(Proof),
    /// A table falsifies it.
    Unproved(Unproved),
    /// Neither, within the limits: the rounds that were made, of which there is none where there are no rules, and the limit.
    GaveUp(List<Round>, Limit),
    /// A proof that was handed in is not accepted for this condition. No search answers this, but a recheck may.
    NotAccepted,
}

/// A condition, and what was decided of it.
#[derive(Drop)]
pub struct Decided {
    /// The arena of the condition and of all terms of the verdict.
    pub terms: Terms,
    /// The condition over this arena.
    pub condition: Condition,
    /// The verdict.
    pub verdict: Verdict,
}
