//! What a listing says of each condition, where `T` stands for written terms.

use spv_frac::{Frac, Op};
use spv_logic::Kind;
use spv_logic::list::List;

/// Where a condition comes from, as its heading names it.
#[derive(Debug, Drop)]
pub struct Header {
    /// The name of the routine, or a word of its own for the main block.
    pub routine: List<u8>,
    pub kind: Kind,
    pub line: u32,
}

/// One step of a proof. Each adds a fact, but for `Contra`; the first fact of a path has number 1, and
/// so on. Lists of numbers name facts.
#[derive(Debug, Drop)]
pub enum Step<T> {
    /// The hypothesis of this number, from 1; for 0, that the goal is false.
    Given(u32),
    /// That a term equals itself.
    Refl(T),
    /// An equation of a fact with its sides exchanged.
    Symm(u32),
    /// From an equation of two terms, and one of the second with a third, that of the first with the third.
    Trans(u32, u32),
    /// That two terms of one head are equal, from the equations of their arguments.
    Cong(T, T, List<u32>),
    /// A relation, from multiples of facts, each a multiplier and a fact's number. An equation has a
    /// second list, for the other direction; else it is empty.
    Linear(T, List<(Frac, u32)>, List<(Frac, u32)>),
    /// A fact of this kind about these terms; one kind names a field too.
    Schema(u8, List<T>, Option<List<u8>>),
    /// The rule of this number, from 1, for these terms.
    Rule(u32, List<T>),
    /// A formula that follows from these facts by the tables of the connectives and the order of numerals.
    Eval(T, List<u32>),
    /// The end of the path: a fact and its negation, or one fact that is never true.
    Contra(u32, Option<u32>),
}

/// A case split: how many cases follow, and the atom.
#[derive(Debug, Drop)]
pub struct Split<T> {
    pub cases: u32,
    pub atom: T,
}

/// A node of a proof: its steps, and where they do not end the path, a split.
#[derive(Debug, Drop)]
pub struct ProofNode<T> {
    pub steps: List<Step<T>>,
    pub split: Option<Split<T>>,
}

/// An instance of a rule: the rule's number, from 1, and the terms of its variables.
#[derive(Debug, Drop)]
pub struct Instance<T> {
    pub rule: u32,
    pub values: List<T>,
}

/// Why a condition was given up.
#[derive(Debug, Drop)]
pub enum Limit<T> {
    /// After so many splits.
    Splits(u64),
    /// After so many instances.
    Instances(u64),
    /// After so many steps of one check.
    Pivots(u64),
    /// There would be too many terms.
    Terms,
    /// The linear form of a formula has a number that does not fit.
    Form(T),
    /// An operation on two fractions does not fit.
    Wide(Op, Frac, Frac),
}

/// What was decided of a condition.
#[derive(Debug, Drop)]
pub enum Verdict<T> {
    /// It is proved: the nodes of the proof, the root first and each one followed by its cases. There
    /// are none where the listing has no proof.
    Proved(List<ProofNode<T>>),
    /// A table refutes it: the atoms as the table has them, the instances of rules, and the numbers.
    Unproved(List<T>, List<Instance<T>>, List<(T, Frac)>),
    /// It was given up.
    GaveUp(Limit<T>),
}

/// A condition, and what was decided of it.
#[derive(Debug, Drop)]
pub struct Claim<T> {
    pub header: Header,
    pub given: List<T>,
    pub goal: T,
    pub verdict: Verdict<T>,
}
