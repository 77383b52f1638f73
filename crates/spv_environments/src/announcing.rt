// Headings that come and go.

ghost use Rattle.std.specs.Prelude.{◌≡◌, true, OnOk};
ghost use Rattle.spv_typing.specs.Known as spec;
ghost use Rattle.spv_typing.specs.RoutineWalk.{with_heading};
ghost use Rattle.spv_environments.specs.Views.{heading_of};

use crate::known::Known;
use crate::routines::Heading;
use spv_logic::names::Symbol;
use std::alloc::AllocError;

impl Known {
    /// Puts the heading of a routine whose name is free behind the others.
    #[tactic(auto, using(crate::proofs::Heads::routine_is_new, crate::proofs::Heads::heading_last))]
    pub fn announce(&mut self, name: Symbol, heading: Heading) -> Result<(), AllocError>
        requires free { spec.is_free self.old name ≡ true }
        ensures { OnOk result (self.new ≡ with_heading self.old (heading_of name heading)) }
    {
        self.headings.push(name, heading)?;
        Ok(())
    }

    /// Takes the last heading away, which is that of a routine that waits for no body.
    pub fn withdraw(&mut self)
        ensures { (k : spec.Known) (h : spec.Heading) → self.old ≡ with_heading k h → self.new ≡ k }
    {
        let _heading = self.headings.pop();
    }
}
