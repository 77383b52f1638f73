//! Whether a row may say more than it does.

ghost use Rattle.std.specs.Prelude.{◌≡◌, ◌<◌, List, length, Some, IfOk};
ghost use Rattle.spv_simplex.specs.Checks.{HoldsAsserted, IsFeasible};
ghost use Rattle.spv_tableau_rules.specs.tableaux.Bounds.{Bound};
ghost use Rattle.spv_arithmetic_side.specs.constraint_rows.Standing.{HasSaid, IsBack, IsStanding};
ghost use Rattle.spv_arithmetic_side.specs.constraint_rows.Said.{MaySay};
ghost use Rattle.spv_arithmetic_side.specs.constraint_rows.Forcing.{HasEvidence, IsOutcome, IsStopped, IsTried};

use crate::bounds::fact_multiples;
use crate::constraint_rows::standing::Standing;
use crate::farkas::law_refuted;
use spv_frac::Frac;
use spv_logic::list::List;
use spv_simplex::{Checked, law_asserted};
use spv_tableau_rules::constraints::RowConstraint;
use std::alloc::{AllocError, Global};

/// What came of trying whether a row may say more.
#[derive(Debug, Drop)]
pub enum Tried {
    /// It may not: these multiples of facts refute it.
    Refuted(List<(Frac, u32)>),
    /// It may.
    Met,
    /// A check of the tableau was stopped.
    Stopped,
}

impl Standing {
    // What came of a check with more bounds.
    fn outcome(&self, alloc: Global, checked: Checked) -> Result<Tried, AllocError>
        requires { self.now.tableau.answer ≡ Some checked }
        ensures { IfOk result (λ t. IsOutcome self.now checked t) }
    {
        match checked {
            Checked::Infeasible => Ok(Tried::Refuted(fact_multiples(
                alloc,
                self.tableau.combination(),
                self.sources.as_slice(),
            )?)),
            Checked::Feasible => Ok(Tried::Met),
            Checked::Wide => Ok(Tried::Stopped),
            Checked::Pivots => Ok(Tried::Stopped),
        }
    }

    /// Tries whether the bounds that stand leave room for a row of whose sides this is said. The bounds stand as before; the kept point
    /// meets them where the answer is `Met`.
    pub fn try_saying(
        &mut self,
        alloc: Global,
        row: u32,
        saying: RowConstraint,
    ) -> Result<Tried, AllocError>
        requires standing { IsStanding self.old }
        requires row { row < length self.old.tableau.forms }
        requires may { MaySay self.old row saying }
        ensures standing { IsStanding self.new }
        ensures back { IsBack self.old self.new }
        ensures tried { IfOk result (λ t. IsTried self.old row saying t) }
        ensures met { IfOk result (λ t. t ≡ Tried.Met → IsFeasible self.new.tableau) }
        ensures stopped { IfOk result (λ t. t ≡ Tried.Stopped → IsStopped self.new) }
        ensures asserted { (known : List Bound) → HasSaid known self.old row saying → HoldsAsserted known self.old.tableau → HoldsAsserted known self.new.tableau }
        ensures evidence { (known : List Bound) → HasSaid known self.old row saying → HoldsAsserted known self.old.tableau
            → IfOk result (λ t. t ≡ Tried.Stopped → HasEvidence known self.new.tableau) }
    {
        law_refuted();
        law_asserted();
        let mark = self.tableau.mark();
        if !self.say(row, saying, 0) {
            return self.refute(alloc, row, saying);
        }
        self.tableau.law_tableau();
        let checked = self.tableau.check();
        self.tableau.law_tableau();
        let tried = self.outcome(alloc, checked);
        self.tableau.undo(mark);
        tried
    }
}
