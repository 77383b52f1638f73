//! A tree as it grows.

ghost use Rattle.std.specs.Prelude.{◌≡◌, ◌<◌, true, false, length, IfOk, OnOk};
ghost use Rattle.spv_logic.specs.Conditions.{Sequent};
ghost use Rattle.spv_term.specs.Arena.{Arena, tree};
ghost use Rattle.spv_proof_rules.specs.Effects.{Question};
ghost use Rattle.spv_proof_rules.specs.Accepted.{cases_of};
ghost use Rattle.spv_proof_rules.specs.Stand.{StepsIn};
ghost use Rattle.spv_derivations.specs.derivation.Derivation.{asked};
ghost use Rattle.spv_verdicts.specs.declared.answers.growing.Grown.TheVariants as grown;
ghost use Rattle.spv_search.specs.branches.Ends.{FinishedIn, IsFinished};
ghost use Rattle.spv_search.specs.branches.Growth.{start, HasQuestion, IsGrowing, IsIn, Takes};

use crate::branches::cases::{Case, Pending, count_of, is_comparison, push_others, take_next};
use crate::branches::finishing::{Finished, outcome_of};
use spv_atoms::Step;
use spv_derivations::derivation::Part;
use spv_logic::list::List;
use spv_term::{TermId, Terms};
use spv_verdicts::answers::Grown;
use std::alloc::{AllocError, Global};
use std::marker::Model;

/// The tree of a search as it grows. Its nodes come in the order of a walk that takes the first part of each split first; each takes the
/// branch that comes next, and `cases` has the cases of that one. After an `Err` nothing is said of the tree.
#[derive(Drop)]
pub struct Branches {
    nodes: Vec<Grown>,
    cases: Vec<Case>,
    pending: Vec<Pending>,
    is_left: bool,
    splits: u64,
    is_open: bool,
}

impl Model for Branches {
    ghost use Rattle.spv_search.specs.branches.Growth as spec;

    ghost Value = { spec.Growth };

    ghost view = { λ b. record {
      nodes = b.nodes.items;
      cases = b.cases.items;
      pending = b.pending.items;
      is_left = b.is_left;
      splits = b.splits;
      is_open = b.is_open;
    } };
}

impl Branches {
    /// A tree without nodes: the branch without cases comes next. It takes no memory.
    pub fn new(alloc: Global) -> Branches
        ensures start { result ≡ start }
        ensures grows { (q : Question) → IsGrowing q result }
        ensures within { (a : Arena) → IsIn a result }
    {
        Branches {
            nodes: Vec::new(alloc),
            cases: Vec::new(alloc),
            pending: Vec::new(alloc),
            is_left: true,
            splits: 0,
            is_open: false,
        }
    }

    /// Whether a branch is left.
    pub fn is_left(&self) -> bool
        ensures { result ≡ self.now.is_left }
    {
        self.is_left
    }

    /// The cases of the branch that comes next.
    pub fn cases(&self) -> &[Case]
        ensures { result.now ≡ self.now.cases }
    {
        self.cases.as_slice()
    }

    /// How many splits there are.
    pub fn splits(&self) -> u64
        ensures { result ≡ self.now.splits }
    {
        self.splits
    }

    /// The branch that comes next stays open.
    pub fn open(&mut self) -> Result<(), AllocError>
        requires { self.old.is_left ≡ true }
        ensures takes { OnOk result ((q : Question) → Takes q self.old self.new grown.Open) }
        ensures within { OnOk result ((a : Arena) → IsIn a self.old → IsIn a self.new) }
    {
        self.nodes.push(Grown::Open)?;
        self.is_open = true;
        self.is_left = take_next(&mut self.cases, &mut self.pending)?;
        Ok(())
    }

    /// These steps close the branch that comes next, from its cases.
    pub fn close(&mut self, steps: Vec<Step>) -> Result<(), AllocError>
        requires { self.old.is_left ≡ true }
        ensures takes { OnOk result ((q : Question) → Takes q self.old self.new (grown.Closed steps.items)) }
        ensures within { OnOk result ((a : Arena) → IsIn a self.old → StepsIn a steps.items → IsIn a self.new) }
    {
        self.nodes.push(Grown::Closed(List::from_vec(steps)))?;
        self.is_left = take_next(&mut self.cases, &mut self.pending)?;
        Ok(())
    }

    /// The branch that comes next is split on an atom: three parts of an equation of whole numbers, that it is true and both orders of its
    /// sides, and two of every other one. The first part comes next.
    pub fn split(&mut self, terms: &Terms, atom: TermId) -> Result<(), AllocError>
        requires left { self.old.is_left ≡ true }
        requires atom { atom.0 < length terms.now.nodes }
        ensures takes { OnOk result ((c : Sequent) → Takes (asked terms.now c) self.old self.new
            (grown.Split atom (length (cases_of (asked terms.now c) (tree terms.now atom))))) }
        ensures left { OnOk result (self.new.is_left ≡ true) }
        ensures within { OnOk result (IsIn terms.now self.old → IsIn terms.now self.new) }
    {
        let Some(splits) = self.splits.checked_add(1) else {
            return Err(AllocError);
        };
        let own = count_of(self.cases.as_slice())?;
        let three = is_comparison(terms, atom);
        let count = push_others(&mut self.pending, own, atom, three)?;
        self.cases.push(Case {
            atom,
            part: Part::True,
        })?;
        self.nodes.push(Grown::Split(atom, count))?;
        self.splits = splits;
        Ok(())
    }

    /// What came of the tree, where no branch is left: a proof, if no node is open.
    pub fn finish(self, alloc: Global) -> Result<Finished, AllocError>
        requires grows { HasQuestion self }
        requires none { self.is_left ≡ false }
        ensures finished { IfOk result (IsFinished self) }
        ensures within { IfOk result (λ f. (a : Arena) → IsIn a self → FinishedIn a f) }
    {
        let is_open = self.is_open;
        outcome_of(alloc, self.nodes, is_open)
    }
}
