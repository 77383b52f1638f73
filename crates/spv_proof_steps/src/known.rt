//! What cited facts give to terms, found by their ids.

ghost use Rattle.std.specs.Prelude.{◌≡◌, ◌<◌, [], List, length, OnOk, IfOk};
ghost use Rattle.std.specs.List.{list_any};
ghost use Rattle.std.specs.Map.{lookup};
ghost use Rattle.indexmap.specs.IndexMap.{insert_entry};
ghost use Rattle.indexmap.specs.IndexSet.{insert_key};
ghost use Rattle.spv_logic.specs.declared.conditions.TermId.{TermId};
ghost use Rattle.spv_term.specs.Arena.{AllBelow, tree, IsArena};
ghost use Rattle.spv_atoms.specs.Order.{same_id};
ghost use Rattle.spv_proof_rules.specs.Evaluation as spec;
ghost use Rattle.spv_proof_steps.specs.Given.{same_pair, with_value, AddsValues, AddsOrder, GivesValues, GivesOrders, IsKnown};

use crate::candidates::{lower, negated};
use indexmap::{IndexMap, IndexSet};
use spv_term::{TermId, Terms};
use std::alloc::{AllocError, Global};
use std::marker::Model;

/// Truth values that are given to terms. A look-up goes by a hash.
#[derive(Drop)]
pub(crate) struct GivenValues {
    values: IndexMap<TermId, bool>,
}

impl Model for GivenValues {
    ghost use Rattle.std.specs.Prelude.{List, Bool};
    ghost use Rattle.spv_logic.specs.declared.conditions.TermId.{TermId};

    ghost Value = { List (TermId × Bool) };

    ghost view = { λ g. g.values.entries };
}

impl GivenValues {
    // No values.
    fn new(alloc: Global) -> GivenValues
        ensures { result ≡ [] }
    {
        GivenValues {
            values: IndexMap::new(alloc),
        }
    }

    // The value that is given to a term.
    pub(crate) fn value(&self, t: TermId) -> Option<bool>
        ensures { result ≡ lookup (same_id t) self.now }
    {
        self.values.get(&t).copied()
    }

    // Gives a value to a term to which none is given.
    fn insert(&mut self, t: TermId, value: bool) -> Result<(), AllocError>
        ensures { OnOk result (self.new ≡ insert_entry same_id self.old t value) }
    {
        self.values.insert(t, value)?;
        Ok(())
    }

    // Gives a value to a term, unless one is given already.
    fn give(&mut self, t: TermId, value: bool) -> Result<(), AllocError>
        ensures { OnOk result (self.new ≡ with_value self.old t value) }
    {
        match self.value(t) {
            Some(_) => Ok(()),
            None => self.insert(t, value),
        }
    }

    // Gives the values that a true fact gives: its own, and that of what it negates.
    fn add(&mut self, terms: &Terms, fact: TermId) -> Result<(), AllocError>
        requires { fact.0 < length terms.now.nodes }
        ensures { OnOk result (AddsValues terms.now fact self.old self.new) }
    {
        terms.law_arena();
        match negated(terms, fact) {
            Some(u) => {
                self.give(fact, true)?;
                self.give(u, false)
            }
            None => self.give(fact, true),
        }
    }
}

/// Two terms, the first of which is below the second.
#[derive(Clone, Copy, PartialEq, Eq, Hash, Debug)]
pub(crate) struct Order {
    low: TermId,
    high: TermId,
}

/// Terms of which one is below the other. A look-up goes by a hash.
#[derive(Drop)]
pub(crate) struct GivenOrders {
    orders: IndexSet<Order>,
}

impl Model for GivenOrders {
    ghost use Rattle.std.specs.Prelude.{List};
    ghost use Rattle.spv_proof_steps.specs.declared.known.Order.{Order};

    ghost Value = { List Order };

    ghost view = { λ g. g.orders.keys };
}

impl GivenOrders {
    // No terms.
    fn new(alloc: Global) -> GivenOrders
        ensures { result ≡ [] }
    {
        GivenOrders {
            orders: IndexSet::new(alloc),
        }
    }

    // Whether a term is below another.
    pub(crate) fn has(&self, low: TermId, high: TermId) -> bool
        ensures { result ≡ list_any (same_pair (record { low = low; high = high })) self.now }
    {
        self.orders.contains(&Order { low, high })
    }

    // That a term is below another.
    fn insert(&mut self, low: TermId, high: TermId) -> Result<(), AllocError>
        ensures { OnOk result (self.new ≡ insert_key same_pair self.old (record { low = low; high = high })) }
    {
        self.orders.insert_full(Order { low, high })?;
        Ok(())
    }

    // What a fact says, where it puts one term below another.
    fn add(&mut self, terms: &Terms, fact: TermId) -> Result<(), AllocError>
        requires { fact.0 < length terms.now.nodes }
        ensures { OnOk result (AddsOrder terms.now fact self.old self.new) }
    {
        terms.law_arena();
        match lower(terms, fact) {
            Some((low, high)) => self.insert(low, high),
            None => Ok(()),
        }
    }
}

/// What cited facts give: values, and which terms are below which.
#[derive(Drop)]
pub(crate) struct Known {
    pub(crate) values: GivenValues,
    pub(crate) orders: GivenOrders,
}

// The values that cited facts give: of two the first.
fn given_values(alloc: Global, terms: &Terms, cited: &[TermId]) -> Result<GivenValues, AllocError>
    requires { AllBelow (length terms.now.nodes) cited.now }
    ensures { IfOk result (GivesValues terms.now cited.now) }
{
    let mut values = GivenValues::new(alloc);
    for fact in cited {
        values.add(terms, *fact)?;
    }
    Ok(values)
}

// Which terms cited facts put below which.
fn given_orders(alloc: Global, terms: &Terms, cited: &[TermId]) -> Result<GivenOrders, AllocError>
    requires { AllBelow (length terms.now.nodes) cited.now }
    ensures { IfOk result (GivesOrders terms.now cited.now) }
{
    let mut orders = GivenOrders::new(alloc);
    for fact in cited {
        orders.add(terms, *fact)?;
    }
    Ok(orders)
}

/// What cited facts give.
pub(crate) fn known_by(alloc: Global, terms: &Terms, cited: &[TermId]) -> Result<Known, AllocError>
    requires { AllBelow (length terms.now.nodes) cited.now }
    ensures { IfOk result (IsKnown terms.now cited.now) }
{
    let values = given_values(alloc, terms, cited)?;
    let orders = given_orders(alloc, terms, cited)?;
    Ok(Known { values, orders })
}
