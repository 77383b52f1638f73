// Sets of names.

ghost use Rattle.std.specs.Prelude.{◌≡◌, [], OnOk};
ghost use Rattle.spv_effects.specs.frame_events.Names.{named, with_name};

use indexmap::IndexSet;
use spv_logic::names::Symbol;
use std::alloc::{AllocError, Global};
use std::marker::Model;

/// Names, each once, in the order in which they were added. A look-up goes by a hash.
#[derive(Drop)]
pub struct NameSet {
    names: IndexSet<Symbol>,
}

impl Model for NameSet {
    ghost use Rattle.std.specs.Prelude.{List};
    ghost use Rattle.spv_logic.specs.declared.names.names.Symbol.{Symbol};

    ghost Value = { List Symbol };

    ghost view = { λ s. s.names.keys };
}

impl NameSet {
    /// The empty set.
    pub fn new(alloc: Global) -> NameSet
        ensures { result ≡ [] }
    {
        NameSet {
            names: IndexSet::new(alloc),
        }
    }

    /// Whether a name is in the set.
    pub fn has(&self, x: Symbol) -> bool
        ensures { result ≡ named self.now x }
    {
        self.names.contains(&x)
    }

    /// Puts a name at the end, if it is new.
    pub fn add(&mut self, x: Symbol) -> Result<(), AllocError>
        ensures { OnOk result (self.new ≡ with_name self.old x) }
    {
        self.names.insert_full(x)?;
        Ok(())
    }
}
