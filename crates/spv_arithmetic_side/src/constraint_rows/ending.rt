// A contradiction of bounds as the end of the path.

ghost use Rattle.std.specs.Prelude.{◌≡◌, Some, IfOk, OnErr};
ghost use Rattle.spv_term.specs.Arena.{Arena, IsArena};
ghost use Rattle.spv_proof_rules.specs.Effects.{at_most};
ghost use Rattle.spv_simplex.specs.declared.checked.Checked.TheVariants as checked;
ghost use Rattle.spv_simplex.specs.Checks.{IsInfeasible};
ghost use Rattle.spv_derivations.specs.derivation.Derivation.{Gains, IsDerivation};
ghost use Rattle.spv_derivations.specs.derivation.Literals.{literals};
ghost use Rattle.spv_tableau_rules.specs.constraints.Laws.{numeral_of};
ghost use Rattle.spv_tableau_rules.specs.constraints.Relations.{AreIn};
ghost use Rattle.spv_arithmetic_side.specs.farkas.Refuted.{AreOneAndZero};
ghost use Rattle.spv_arithmetic_side.specs.constraint_rows.Standing.{readings, Sourced};

use crate::constraint_rows::standing::Standing;
use crate::farkas::contradiction;
use spv_derivations::derivation::Derivation;
use spv_term::TermId;
use std::alloc::{AllocError, Global};

impl Standing {
    /// The number of the fact that 1 is at most 0, which ends the path: it follows from the facts that the bounds come from,
    /// where the last check found a contradiction of them. After an error the derivation is as it was.
    pub fn end(
        &self,
        alloc: Global,
        derivation: &mut Derivation,
        one: TermId,
        zero: TermId,
    ) -> Result<u32, AllocError>
        requires { self.now.tableau.answer ≡ Some checked.Infeasible }
        ensures gains { IfOk result (λ n. (a : Arena) → IsArena a → IsDerivation a derivation.old → AreOneAndZero a one zero → AreIn a self.now.tableau.forms
            → Sourced a (readings a derivation.old) self.now self.now.tableau.bounds → IsInfeasible self.now.tableau
            → Gains a derivation.old derivation.new n (at_most (numeral_of 1) (numeral_of 0))) }
        ensures err { OnErr result (derivation.new ≡ derivation.old) }
        ensures literals { literals derivation.new ≡ literals derivation.old }
    {
        contradiction(
            alloc,
            derivation,
            one,
            zero,
            self.tableau.combination(),
            self.sources.as_slice(),
        )
    }
}
