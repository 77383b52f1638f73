// The strict orders of an arena, by their sides.

ghost use Rattle.std.specs.Prelude.{◌≡◌, ◌<◌, ◌+◌, [], length, OnOk, IfOk};
ghost use Rattle.spv_trail.specs.followers.Followers.{pair, order_of, PutsOrder, AreOrders};

use indexmap::IndexMap;
use spv_proof_steps::candidates::lower;
use spv_term::{TermId, Terms};
use std::alloc::{AllocError, Global};
use std::marker::Model;

/// Two terms.
#[derive(Clone, Copy, PartialEq, Eq, Hash)]
pub(crate) struct Pair {
    pub(crate) left: TermId,
    pub(crate) right: TermId,
}

/// Strict orders, beside their sides. A look-up goes by a hash.
#[derive(Drop)]
pub(crate) struct Orders {
    entries: IndexMap<Pair, TermId>,
}

impl Model for Orders {
    ghost use Rattle.std.specs.Prelude.{List};
    ghost use Rattle.spv_logic.specs.declared.conditions.TermId.{TermId};
    ghost use Rattle.spv_trail.specs.declared.followers.orders.Pair.{Pair};

    ghost Value = { List (Pair × TermId) };

    ghost view = { λ o. o.entries.entries };
}

impl Orders {
    // No orders.
    fn new(alloc: Global) -> Orders
        ensures { result ≡ [] }
    {
        Orders {
            entries: IndexMap::new(alloc),
        }
    }

    // The term that says that one term is below another.
    pub(crate) fn get(&self, left: TermId, right: TermId) -> Option<TermId>
        ensures { result ≡ order_of self.now (pair left right) }
    {
        self.entries.get(&Pair { left, right }).copied()
    }

    // Puts a term beside its sides.
    fn put(&mut self, left: TermId, right: TermId, t: TermId) -> Result<(), AllocError>
        ensures { OnOk result (PutsOrder (pair left right) t self.old self.new) }
    {
        self.entries.insert(Pair { left, right }, t)?;
        Ok(())
    }
}

// Puts a term beside its sides, if it is a strict order.
fn add_order(terms: &Terms, orders: &mut Orders, t: TermId) -> Result<(), AllocError>
    requires t { t.0 < length terms.now.nodes }
    requires orders { AreOrders terms.now t.0 orders.old }
    ensures { OnOk result (AreOrders terms.now (t.0 + 1) orders.new) }
{
    terms.law_arena();
    match lower(terms, t) {
        Some((left, right)) => {
            orders.put(left, right, t)?;
            Ok(())
        }
        None => Ok(()),
    }
}

/// The strict orders of an arena.
pub(crate) fn find_orders(alloc: Global, terms: &Terms) -> Result<Orders, AllocError>
    ensures { IfOk result (AreOrders terms.now (length terms.now.nodes)) }
{
    let mut orders = Orders::new(alloc);
    for place in 0..terms.len() {
        add_order(terms, &mut orders, TermId(place))?;
    }
    Ok(orders)
}
