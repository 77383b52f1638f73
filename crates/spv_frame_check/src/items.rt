// Sets of items.

ghost use Rattle.std.specs.List.{list_any};
ghost use Rattle.std.specs.Prelude.{◌≡◌, [], OnOk};
ghost use Rattle.spv_frame_check.specs.Sets.{holds, with_item, with_type};
ghost use Rattle.spv_program.specs.Types.{same_type};

use indexmap::IndexSet;
use spv_effects::frame_events::NameSet;
use spv_logic::TypeId;
use spv_program::Item;
use std::alloc::{AllocError, Global};
use std::marker::Model;

/// Classes, each once. A look-up goes by a hash.
#[derive(Drop)]
pub(crate) struct ClassSet {
    classes: IndexSet<TypeId>,
}

impl Model for ClassSet {
    ghost use Rattle.std.specs.Prelude.{List};
    ghost use Rattle.spv_logic.specs.declared.types.TypeId.{TypeId};

    ghost Value = { List TypeId };

    ghost view = { λ s. s.classes.keys };
}

impl ClassSet {
    fn new(alloc: Global) -> ClassSet
        ensures { result ≡ [] }
    {
        ClassSet {
            classes: IndexSet::new(alloc),
        }
    }

    fn has(&self, t: TypeId) -> bool
        ensures { result ≡ list_any (same_type t) self.now }
    {
        self.classes.contains(&t)
    }

    fn add(&mut self, t: TypeId) -> Result<(), AllocError>
        ensures { OnOk result (self.new ≡ with_type self.old t) }
    {
        self.classes.insert_full(t)?;
        Ok(())
    }
}

/// Items, each once. A look-up goes by a hash.
#[derive(Drop)]
pub(crate) struct ItemSet {
    names: NameSet,
    classes: ClassSet,
}

impl Model for ItemSet {
    ghost use Rattle.spv_frame_check.specs.Sets.{ItemSets};

    ghost Value = { ItemSets };

    ghost view = { λ s. record { names = s.names; classes = s.classes } };
}

impl ItemSet {
    // The empty set.
    pub fn new(alloc: Global) -> ItemSet
        ensures { result ≡ record { names = []; classes = [] } }
    {
        ItemSet {
            names: NameSet::new(alloc),
            classes: ClassSet::new(alloc),
        }
    }

    // Whether an item is in the set.
    pub fn has(&self, item: Item) -> bool
        ensures { result ≡ holds self.now item }
    {
        match item {
            Item::Variable(x) => self.names.has(x),
            Item::Class(t) => self.classes.has(t),
        }
    }

    // Puts an item into the set.
    pub fn add(&mut self, item: Item) -> Result<(), AllocError>
        ensures { OnOk result (self.new ≡ with_item self.old item) }
    {
        match item {
            Item::Variable(x) => self.names.add(x),
            Item::Class(t) => self.classes.add(t),
        }
    }
}
