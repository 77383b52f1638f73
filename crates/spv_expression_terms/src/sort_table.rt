//! The sorts of names, in two levels: a routine's own names, and behind them those that all routines share.

ghost use Rattle.std.specs.Prelude.{◌≡◌, ◌++◌};
ghost use Rattle.spv_program.specs.Lists.{found};

use spv_logic::Sort;
use spv_logic::names::Symbol;
use spv_program::ordered_map::Named;
use std::alloc::Global;
use std::marker::Model;

/// The sorts of names: of those in a table of its own first, and behind them of those in a table that others use, too. A name in both
/// has its own sort. Contracts see one list.
#[derive(Drop)]
pub struct SortTable<'t> {
    own: Named<Sort>,
    shared: &'t Named<Sort>,
}

impl<'t> Model for SortTable<'t> {
    ghost use Rattle.std.specs.Prelude.{◌++◌};
    ghost use Rattle.spv_program.specs.Scopes.{Scope};

    ghost Value = { Scope };

    ghost view = { λ t. t.own ++ t.shared.now };
}

impl<'t> SortTable<'t> {
    /// The names of a shared table alone. It takes no memory.
    pub fn of(alloc: Global, shared: &'t Named<Sort>) -> SortTable<'t>
        ensures { result ≡ shared.now }
    {
        SortTable {
            own: Named::new(alloc),
            shared,
        }
    }

    /// Names of its own, in front of those of a shared table.
    pub fn in_front(own: Named<Sort>, shared: &'t Named<Sort>) -> SortTable<'t>
        ensures { result ≡ own ++ shared.now }
    {
        SortTable { own, shared }
    }

    /// The sort of a name.
    #[tactic(auto, using(crate::proofs::sort_table::Levels::found_append))]
    pub fn get(&self, name: Symbol) -> Option<Sort>
        ensures { result ≡ found self.now name }
    {
        match self.own.get(name) {
            Some(sort) => Some(*sort),
            None => self.shared.get(name).copied(),
        }
    }
}
