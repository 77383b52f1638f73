// Values of terms that a graph joins.

ghost use Rattle.spv_term.specs.Arena.{IsArena};
ghost use Rattle.spv_congruence.specs.Graph.{AreTerms};
ghost use Rattle.spv_congruence.specs.Told.{IsExact};
ghost use Rattle.spv_simplex.specs.State.{IsTableau};
ghost use Rattle.spv_share.specs.Both.{IsBoth};
ghost use Rattle.spv_share.specs.States.{IsOpen};
ghost use Rattle.spv_share.specs.combination_laws.Pairs.{AreEnough};
ghost use Rattle.spv_share.specs.combination_laws.Laws.{HaveOneValue, HaveOneValueApart, LabelsAreExact, SameHaveOneValue};

use crate::Both;
use spv_term::Terms;

/// The labels of the terms of the graph are equal exactly where there is a derivation from what was told.
pub fn law_labels(both: &Both, terms: &Terms)
    requires { IsBoth terms.now both.now }
    ensures { LabelsAreExact terms.now both.now }
{
    terms.law_arena();
    both.trail.graph.law_same();
    both.trail.graph.law_terms();
}

/// Where both sides are open, and the relations are enough, terms of sort Int that the graph joins have one value: at each point that
/// meets the bounds that stand, and so at the kept one and at those of the orders of equalities that the graph does not join.
pub fn law_one_value(both: &Both, terms: &Terms)
    requires both { IsBoth terms.now both.now }
    requires agree { IsOpen both.now }
    requires enough { AreEnough terms.now both.now }
    ensures values { HaveOneValue terms.now both.now }
    ensures apart { HaveOneValueApart terms.now both.now }
    ensures same { SameHaveOneValue terms.now both.now }
{
    terms.law_arena();
    both.trail.graph.law_same();
    both.trail.graph.law_terms();
    both.standing.tableau.law_tableau();
}
