// Headings by the numbers of their routines.

ghost use Rattle.std.specs.Prelude.{◌≡◌, ◌<◌, ◌≤◌, ◌∷◌, [], IfNone, IfSome, drop, length};
ghost use Rattle.spv_environments.specs.Numbered.{numbered};
ghost use Rattle.spv_environments.specs.Views.{heading_of};

use crate::known::Known;
use crate::routines::Heading;
use spv_logic::RoutineId;
use spv_logic::names::Symbol;

impl Known {
    /// The first heading at or behind a place, from 0, whose routine has this number: the place behind it, its name, and what
    /// else is known of it.
    #[tactic(auto, using(crate::proofs::NumberedHeadings::headings_count))]
    pub fn heading_numbered(
        &self,
        number: RoutineId,
        from: usize,
    ) -> Option<(usize, Symbol, &Heading)>
        ensures there { IfSome result (λ f. numbered number (drop from self.now.headings) ≡ heading_of f.1 f.2.now ∷ numbered number (drop f.0 self.now.headings)) }
        ensures behind { IfSome result (λ f. from < f.0) }
        ensures within { IfSome result (λ f. f.0 ≤ length self.now.headings) }
        ensures missing { IfNone result (numbered number (drop from self.now.headings) ≡ []) }
    {
        self.headings.numbered(number, from)
    }
}
