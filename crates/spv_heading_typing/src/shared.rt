// The items of a GLOBAL list.

ghost use Rattle.std.specs.Prelude.{◌≡◌, [], ◌∷◌, ◌++◌, true, false, map, IfOk};
ghost use Rattle.std.specs.List.{list_any};
ghost use Rattle.spv_logic.specs.declared.names.names.Symbol.{Symbol as SymbolText};
ghost use Rattle.spv_program.specs.declared.types.Item.TheVariants.{Variable, Class};
ghost use Rattle.spv_program.specs.Types.{same_item};
ghost use Rattle.spv_program.specs.Programs.{lists};
ghost use Rattle.spv_program.specs.typed.ProgramViews.{global_of};
ghost use Rattle.spv_typing.specs.RoutineWalk.{is_listed};
ghost use Rattle.spv_heading_typing.specs.Names.{has};

use spv_logic::TypeId;
use spv_logic::list::List;
use spv_logic::names::Symbol;
use spv_program::Item;
use spv_program::ordered_map::Named;
use spv_program::typed::GlobalItem;
use std::alloc::{AllocError, Global};
use std::marker::Model;

/// The items of a GLOBAL list, in order, no two the same. A look-up goes by a hash.
#[derive(Drop)]
pub struct Shared {
    items: List<GlobalItem>,
    variables: Named<bool>,
    classes: Named<bool>,
}

impl Model for Shared {
    ghost use Rattle.std.specs.Prelude.{List, map};
    ghost use Rattle.spv_program.specs.Programs.{GlobalItem as Plain};
    ghost use Rattle.spv_program.specs.typed.ProgramViews.{global_of};
    ghost use Rattle.spv_heading_typing.specs.Shared.{Indexed};

    ghost Value = { List Plain };

    ghost view = { λ s. map global_of s.items };

    ghost invariant = { λ s. Indexed (map global_of s.items) s.variables s.classes };
}

// A class as a name of its own table.
fn class_name(t: TypeId) -> Symbol
    ensures { result ≡ record { 0 = t.0 } }
{
    Symbol(t.0)
}

impl Shared {
    /// No items.
    #[tactic(auto, using(crate::proofs::Indexing::nothing_indexed))]
    pub fn new(alloc: Global) -> Shared
        ensures { result ≡ [] }
    {
        Shared {
            items: List::new(alloc),
            variables: Named::new(alloc),
            classes: Named::new(alloc),
        }
    }

    /// Whether an item is there.
    pub fn has(&self, item: Item) -> bool
        ensures { result ≡ list_any (λ g. same_item g.item item) self.now }
    {
        match item {
            Item::Variable(x) => self.variables.has(x),
            Item::Class(t) => self.classes.has(class_name(t)),
        }
    }

    /// Whether an item is there, with VAR before its group.
    pub fn may_change(&self, item: Item) -> bool
        ensures { result ≡ lists self.now item true }
    {
        let found = match item {
            Item::Variable(x) => self.variables.get(x),
            Item::Class(t) => self.classes.get(class_name(t)),
        };
        match found {
            Some(by_place) => *by_place,
            None => false,
        }
    }

    fn with_variable(self, x: Symbol, item: GlobalItem) -> Result<Shared, AllocError>
        requires kind { item.item ≡ Variable x }
        requires new { list_any (λ g. same_item g.item item.item) self ≡ false }
        ensures { IfOk result (λ s. s ≡ self ++ global_of item ∷ []) }
    {
        let Shared {
            mut items,
            mut variables,
            classes,
        } = self;
        items.push(item)?;
        variables.insert(x, item.is_var)?;
        Ok(Shared {
            items,
            variables,
            classes,
        })
    }

    fn with_class(self, t: TypeId, item: GlobalItem) -> Result<Shared, AllocError>
        requires kind { item.item ≡ Class t }
        requires new { list_any (λ g. same_item g.item item.item) self ≡ false }
        ensures { IfOk result (λ s. s ≡ self ++ global_of item ∷ []) }
    {
        let Shared {
            mut items,
            variables,
            mut classes,
        } = self;
        items.push(item)?;
        classes.insert(class_name(t), item.is_var)?;
        Ok(Shared {
            items,
            variables,
            classes,
        })
    }

    /// The items with one more behind them, which is not there yet.
    pub fn with(self, item: GlobalItem) -> Result<Shared, AllocError>
        requires new { list_any (λ g. same_item g.item item.item) self ≡ false }
        ensures { IfOk result (λ s. s ≡ self ++ global_of item ∷ []) }
    {
        match item.item {
            Item::Variable(x) => self.with_variable(x, item),
            Item::Class(t) => self.with_class(t, item),
        }
    }

    /// The variables among the items.
    pub fn variables(&self) -> &Named<bool>
        ensures listed { (x : SymbolText) → has result.now x ≡ is_listed self.now x }
    {
        &self.variables
    }

    /// The items alone, and the variables among them.
    pub fn into_parts(self) -> (List<GlobalItem>, Named<bool>)
        ensures items { map global_of result.0 ≡ self }
        ensures listed { (x : SymbolText) → has result.1 x ≡ is_listed self x }
    {
        (self.items, self.variables)
    }
}
