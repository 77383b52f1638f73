// Names that are put behind others.

ghost use Rattle.std.specs.Prelude.{◌≡◌, ◌++◌, false, is_some, map, OnOk};
ghost use Rattle.std.specs.List.{list_any};
ghost use Rattle.spv_program.specs.Lists.{found};
ghost use Rattle.spv_program.specs.ordered_map.Entries.{under};

use crate::ordered_map::Named;
use std::alloc::AllocError;

impl<T: Copy + Drop> Named<T> {
    #[tactic(auto, using(crate::proofs::ordered_map::Putting::next_is_new, crate::proofs::ordered_map::Putting::one_more, crate::proofs::ordered_map::Putting::none_under))]
    /// Puts one value under each of some names, all of which are new, in their order.
    pub fn put_names<U: Drop>(&mut self, names: &Named<U>, value: T) -> Result<(), AllocError>
        requires new { list_any (λ e. is_some (found self.old e.0)) names.now ≡ false }
        ensures { OnOk result (self.new ≡ self.old ++ map (under value) names.now) }
    {
        for place in 0..names.len() {
            let Some((name, _)) = names.entry(place) else {
                break;
            };
            self.insert(name, value)?;
        }
        Ok(())
    }

    #[tactic(auto, using(crate::proofs::ordered_map::Putting::next_is_new, crate::proofs::ordered_map::Putting::one_copied))]
    /// Puts names behind those that are there, all of which are new, with what stands under them.
    pub fn put_copies(&mut self, names: &Named<T>) -> Result<(), AllocError>
        requires new { list_any (λ e. is_some (found self.old e.0)) names.now ≡ false }
        ensures { OnOk result (self.new ≡ self.old ++ names.now) }
    {
        for place in 0..names.len() {
            let Some((name, value)) = names.entry(place) else {
                break;
            };
            self.insert(name, *value)?;
        }
        Ok(())
    }
}
