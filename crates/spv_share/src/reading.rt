// What both sides say where they are open, and what stopped them.

ghost use Rattle.std.specs.Prelude.{◌≡◌, Some, IsTrue};
ghost use Rattle.std.specs.List.{list_any};
ghost use Rattle.spv_frac.specs.rational.Rational.{number};
ghost use Rattle.spv_atoms.specs.Order.{same_id};
ghost use Rattle.spv_tableau_rules.specs.tableaux.Forms.{part_ids};
ghost use Rattle.spv_congruence.specs.Graph.{label_of};
ghost use Rattle.spv_congruence.specs.Keep.{IsNode};
ghost use Rattle.spv_simplex.specs.State.{value_of};
ghost use Rattle.spv_arithmetic_side.specs.constraint_rows.Forcing.{IsStopped};
ghost use Rattle.spv_share.specs.States.{IsOpen};

use crate::both::Both;
use spv_congruence::ClassId;
use spv_frac::Frac;
use spv_simplex::Evidence;
use spv_term::TermId;

impl Both {
    /// The value of a term at the point, where both sides are open: what the tableau answers.
    pub fn point(&self, t: TermId) -> Frac
        requires open { IsOpen self.now }
        requires column { IsTrue (list_any (same_id t) (part_ids self.now.standing.tableau.forms)) }
        ensures { number result ≡ value_of self.now.standing.tableau t }
    {
        self.standing.tableau.point(t)
    }

    /// The class of a term: what the graph answers.
    pub fn class_of(&self, t: TermId) -> ClassId
        requires { IsNode self.now.trail.graph.nodes t }
        ensures { result.0 ≡ label_of self.now.trail.graph.joins t }
    {
        self.trail.graph.class_of(t)
    }

    /// Why the last check of the tableau was stopped.
    pub fn evidence(&self) -> &Evidence
        requires stopped { IsStopped self.now.standing }
        ensures { result.now ≡ self.now.standing.tableau.evidence }
    {
        self.standing.tableau.evidence()
    }
}
