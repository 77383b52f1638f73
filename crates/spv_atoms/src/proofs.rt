// Proofs as data.

ghost use Rattle.std.specs.Prelude.{◌≡◌, IsTrue};
ghost use Rattle.spv_atoms.specs.Shape.{is_tree};

use spv_frac::Frac;
use spv_logic::TermId;
use spv_logic::list::List;
use spv_logic::names::Symbol;
use std::marker::Model;

/// A relation of two whole numbers.
#[derive(Clone, Copy, Debug)]
pub enum Relation {
    /// That the first is at most the second.
    AtMost(TermId, TermId),
    /// That they are equal.
    Equal(TermId, TermId),
}

/// What an evaluation states.
#[derive(Clone, Copy, Debug)]
pub enum Stated {
    /// That a term has this truth value.
    Is(TermId, bool),
    /// That two terms have the same truth value.
    Same(TermId, TermId),
}

/// One step of a proof. Each adds a fact, but for `Contra`; the first fact of a path has number 1, and
/// so on. Lists of numbers name facts.
#[derive(Debug, Drop)]
pub enum Step {
    /// The hypothesis of this number, from 1; for 0, that the goal is false.
    Given(u32),
    /// That a term equals itself.
    Refl(TermId),
    /// An equation of a fact with its sides exchanged.
    Symm(u32),
    /// From an equation of two terms, and one of the second with a third, that of the first with the third.
    Trans(u32, u32),
    /// That two terms of one head are equal, from the equations of their arguments.
    Cong(TermId, TermId, List<u32>),
    /// A relation, from multiples of facts, each a multiplier and a fact's number, whose sum contradicts
    /// its negation: number 0 stands for that negation. An equality has a second list, for the other
    /// direction; else it is empty.
    Linear(Relation, List<(Frac, u32)>, List<(Frac, u32)>),
    /// A fact of this kind about these terms; one kind names a field too.
    Schema(u8, List<TermId>, Option<Symbol>),
    /// The rule of this number, from 1, for these terms.
    Rule(u32, List<TermId>),
    /// What follows from these facts by the tables of the connectives and the order of numerals.
    Eval(Stated, List<u32>),
    /// The end of the path: a fact and its negation, or one fact that is never true.
    Contra(u32, Option<u32>),
}

/// A case split: the atom, and the places of the nodes of its cases, of which there is at least one.
#[derive(Debug, Drop)]
pub struct Split {
    pub atom: TermId,
    pub parts: List<u32>,
}

/// A node of a proof: its steps, and where they do not end the path, a split.
#[derive(Debug, Drop)]
pub struct ProofNode {
    pub steps: List<Step>,
    pub split: Option<Split>,
}

/// A proof: a tree whose nodes stand in one list, as its text has them. A deep proof is then a long
/// list, and no value inside a value. The list begins with the root; each other node is a case of
/// exactly one split.
#[derive(Debug, Drop)]
pub struct Proof {
    nodes: Vec<ProofNode>,
}

impl Model for Proof {
    ghost use Rattle.std.specs.Prelude.{List, IsTrue};
    ghost use Rattle.spv_atoms.specs.declared.proofs.ProofNode.{ProofNode};

    ghost Value = { List ProofNode };

    ghost use Rattle.spv_atoms.specs.Shape.{is_tree};

    ghost view = { λ p. p.nodes.items };

    ghost invariant = { λ p. IsTrue (is_tree p.nodes.items) };
}

impl Proof {
    /// The proof of these nodes, the root first and each one followed by its cases.
    pub fn new(nodes: Vec<ProofNode>) -> Proof
        requires { IsTrue (is_tree nodes.items) }
        ensures { result ≡ nodes.items }
    {
        Proof { nodes }
    }

    /// The nodes, the root first.
    pub fn nodes(&self) -> &[ProofNode]
        ensures nodes { result.now ≡ self.now }
        ensures tree { IsTrue (is_tree result.now) }
    {
        self.nodes.as_slice()
    }
}
