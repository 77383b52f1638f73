// Conditions in progress.

ghost use Rattle.std.specs.Prelude.{◌≡◌, ◌+◌, ◌≤◌, ◌++◌, [], ◌∷◌, map, length, Err, IfOk};
ghost use Rattle.spv_term.specs.declared.nodes.TermFault.TheVariants.{Size};
ghost use Rattle.spv_term.specs.Arena.{Extends};
ghost use Rattle.spv_term.specs.substitution.Images.{ArePairs};
ghost use Rattle.spv_term.specs.substitution.Parts.{AddsParts, LacksPart};
ghost use Rattle.spv_meaning.specs.Before as before;
ghost use Rattle.spv_assign.specs.creation_trace.Events.{longest_list};
ghost use Rattle.spv_assign.specs.Conditions.{all_terms_in, conditions_of, pairs_of, sorts_of, with_given, AreIn, Assumes};

use crate::pending::listing::conditions;
use crate::pending::queues::{copied, joined};
use crate::pending::replacing::replaced;
use crate::pending::steps::{Assumption, Step};
use spv_logic::Origin;
use spv_term::{Condition, TermFault, TermId, Terms};
use std::alloc::{AllocError, Global};
use std::collections::VecDeque;
use std::marker::Model;

/// Conditions in progress, in order. A hypothesis that was put in front of several of them stands once.
#[derive(Drop)]
pub struct Pending {
    steps: VecDeque<Step>,
    count: usize,
}

impl Model for Pending {
    ghost use Rattle.std.specs.Prelude.{◌≡◌, length};
    ghost use Rattle.spv_assign.specs.pending.Lists.{ConditionList};
    ghost use Rattle.spv_assign.specs.pending.Steps.{AreSteps, conditions_in};

    ghost Value = { ConditionList };

    ghost view = { λ p. record { items = conditions_in p.steps.items } };

    ghost invariant = { λ p. AreSteps p.steps.items × (p.count ≡ length (conditions_in p.steps.items)) };
}

impl Pending {
    /// No conditions.
    pub fn new(alloc: Global) -> Pending
        ensures { result.items ≡ [] }
    {
        Pending {
            steps: VecDeque::new(alloc),
            count: 0,
        }
    }

    /// One condition, of which nothing is given.
    pub fn one(alloc: Global, goal: TermId, origin: Origin) -> Result<Pending, AllocError>
        ensures { IfOk result (λ all. all.items ≡ record { given = []; goal = goal; origin = origin } ∷ []) }
    {
        let mut steps = VecDeque::new(alloc);
        steps.push_front(Step::Goal(goal, origin))?;
        Ok(Pending { steps, count: 1 })
    }

    /// How many conditions there are.
    pub fn len(&self) -> usize
        ensures { result ≡ length self.now.items }
    {
        self.count
    }

    /// The same conditions once more.
    pub fn copied(&self, alloc: Global) -> Result<Pending, AllocError>
        ensures { IfOk result (λ all. all.items ≡ self.now.items) }
    {
        let steps = copied(alloc, &self.steps)?;
        Ok(Pending {
            steps,
            count: self.count,
        })
    }

    /// The conditions with one hypothesis more, in front of each.
    pub fn assumed(self, h: TermId) -> Result<Pending, AllocError>
        ensures { IfOk result (λ all. all.items ≡ map (with_given h) self.items) }
    {
        if self.count == 0 {
            return Ok(self);
        }
        let count = self.count;
        let mut steps = self.steps;
        steps.push_front(Step::Given(Assumption { term: h, count }))?;
        Ok(Pending { steps, count })
    }

    /// The conditions, and others behind them.
    pub(crate) fn joined(self, second: Pending) -> Result<Pending, AllocError>
        requires { length self.items + length second.items ≤ longest_list }
        ensures { IfOk result (λ all. all.items ≡ self.items ++ second.items) }
    {
        let count = self.count + second.count;
        let steps = joined(self.steps, second.steps)?;
        Ok(Pending { steps, count })
    }

    /// The conditions with the second terms of pairs in the place of the first ones, all at once, by one
    /// substitution for all of them. `Size` comes only where the arena is full and a part of one of the
    /// answers is not there; nothing but parts of them is added.
    pub fn replaced(
        &self,
        terms: &mut Terms,
        alloc: Global,
        pairs: &[(TermId, TermId)],
    ) -> Result<Pending, TermFault>
        requires there { AreIn terms.old self.now.items }
        requires pairs { ArePairs terms.old pairs.now }
        ensures conditions { IfOk result (λ all. conditions_of terms.new all.items
            ≡ before.replaced (pairs_of terms.old pairs.now) (conditions_of terms.old self.now.items)) }
        ensures sorts { IfOk result (λ all. map (sorts_of terms.new) all.items ≡ map (sorts_of terms.old) self.now.items) }
        ensures in_range { IfOk result (λ all. AreIn terms.new all.items) }
        ensures grows { Extends terms.old terms.new }
        ensures only { AddsParts terms.old terms.new
            (all_terms_in (before.replaced (pairs_of terms.old pairs.now) (conditions_of terms.old self.now.items))) }
        ensures size { result ≡ Err Size → LacksPart terms.new
            (all_terms_in (before.replaced (pairs_of terms.old pairs.now) (conditions_of terms.old self.now.items))) }
    {
        let steps = replaced(terms, alloc, pairs, &self.steps)?;
        Ok(Pending {
            steps,
            count: self.count,
        })
    }

    /// The conditions written out, each with all that is given in front of it.
    pub fn conditions(&self, alloc: Global) -> Result<Vec<Condition>, AllocError>
        ensures { IfOk result (λ all. all.items ≡ self.now.items) }
    {
        conditions(alloc, &self.steps)
    }
}
