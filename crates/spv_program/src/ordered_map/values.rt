// Other values under names that are there.

ghost use Rattle.std.specs.Prelude.{◌≡◌, ◌<◌, None, length};
ghost use Rattle.spv_program.specs.Lists.{found, changed};
ghost use Rattle.spv_program.specs.ordered_map.Entries.{with_value, without_name};

use crate::ordered_map::Named;
use spv_logic::names::Symbol;

impl<T: Drop> Named<T> {
    /// Puts another value under the name at a place, counted from 0.
    #[tactic(auto, using(crate::proofs::ordered_map::Lookups::value_put))]
    pub fn set(&mut self, place: usize, value: T)
        requires { place < length self.old }
        ensures { self.new ≡ with_value self.old place value }
    {
        let old = self.entries.get_index_mut(place).unwrap();
        *old = value;
    }

    /// Puts another value under a name, where it is there, and answers the one that stood there.
    #[tactic(auto, using(crate::proofs::ordered_map::Lookups::found_is, crate::proofs::ordered_map::Replacing::value_changed, crate::proofs::ordered_map::Replacing::nothing_changed))]
    pub fn replace(&mut self, name: Symbol, value: T) -> Option<T>
        ensures old { result ≡ found self.old name }
        ensures new { self.new ≡ changed self.old name value }
    {
        let old = self.entries.get_mut(&name.0)?;
        Some(std::mem::replace(old, value))
    }

    /// Takes a name away, where it is there, with what stands under it. It goes over the names behind it.
    #[tactic(auto, using(crate::proofs::ordered_map::Lookups::found_is, crate::proofs::ordered_map::Replacing::entry_removed, crate::proofs::ordered_map::Replacing::name_gone))]
    pub fn remove(&mut self, name: Symbol) -> Option<T>
        ensures old { result ≡ found self.old name }
        ensures new { self.new ≡ without_name self.old name }
        ensures gone { found self.new name ≡ None }
    {
        // What is called says that no two keys are the same.
        let _count = self.entries.len();
        self.entries.shift_remove(&name.0)
    }
}
