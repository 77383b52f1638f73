// Rules over an arena.

ghost use Rattle.std.specs.Prelude.{◌≡◌, ◌<◌, ◌++◌, ◌∷◌, [], length, Some, OnOk, OnErr, slice_get};
ghost use Rattle.spv_term.specs.Arena.{Arena, IsArena, Extends};
ghost use Rattle.spv_rules.specs.RuleSets.{IsRule, AreRules, RuleStays};

use spv_logic::list::List;
use spv_term::{TermId, Terms};
use std::alloc::{AllocError, Global};
use std::marker::Model;

/// A rule over terms of an arena: what it says of whatever stands in the place of its variables.
#[derive(Debug, Drop)]
pub struct Rule {
    /// Its variables, in the order in which its trigger first has them.
    pub variables: List<TermId>,
    /// The term by which instances are found.
    pub trigger: TermId,
    /// What it says.
    pub formula: TermId,
}

/// Rules in order, over an arena of their own. A rule's number is its place from 1.
#[derive(Drop)]
pub struct Rules {
    terms: Terms,
    list: Vec<Rule>,
}

impl Model for Rules {
    ghost use Rattle.spv_rules.specs.RuleSets.{RuleSet, IsRuleSet};

    ghost Value = { RuleSet };

    ghost view = { λ r. record { arena = r.terms; list = r.list.items } };

    ghost invariant = { λ r. IsRuleSet (record { arena = r.terms; list = r.list.items }) };
}

impl Rules {
    /// No rules, over these terms.
    pub fn new(alloc: Global, terms: Terms) -> Rules
        ensures arena { result.arena ≡ terms }
        ensures list { result.list ≡ [] }
    {
        terms.law_arena();
        Rules {
            terms,
            list: Vec::new(alloc),
        }
    }

    /// These rules, over these terms.
    pub fn from_vec(terms: Terms, list: Vec<Rule>) -> Rules
        requires { AreRules terms list.items }
        ensures arena { result.arena ≡ terms }
        ensures list { result.list ≡ list.items }
    {
        terms.law_arena();
        Rules { terms, list }
    }

    /// One rule more, behind the others. For want of memory the rules stay as they were.
    pub fn push(&mut self, rule: Rule) -> Result<(), AllocError>
        requires { IsRule self.old.arena rule }
        ensures arena { self.new.arena ≡ self.old.arena }
        ensures ok { OnOk result (self.new.list ≡ self.old.list ++ rule ∷ []) }
        ensures err { OnErr result (self.new ≡ self.old) }
    {
        self.list.push(rule)?;
        Ok(())
    }

    /// How many rules there are.
    pub fn len(&self) -> usize
        ensures { result ≡ length self.now.list }
    {
        self.list.len()
    }

    /// The rule at a place, from 0.
    pub fn get(&self, place: usize) -> &Rule
        requires { place < length self.now.list }
        ensures { slice_get self.now.list place ≡ Some result.now }
    {
        &self.list[place]
    }

    /// The terms that the rules are over.
    pub fn terms(&self) -> &Terms
        ensures { result.now ≡ self.now.arena }
    {
        &self.terms
    }

    /// What is true of each rule.
    pub fn law_rules(&self)
        ensures arena { IsArena self.now.arena }
        ensures rules { AreRules self.now.arena self.now.list }
    {
        let _list = &self.list;
    }
}

/// A rule over an arena is one over what it grows to, and says the same there.
pub fn law_rule_stays()
    ensures { (old new : Arena) → Extends old new → RuleStays old new }
{}
