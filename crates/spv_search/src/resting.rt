// A path on which all is told, evaluations add nothing, and both sides are open.

ghost use Rattle.std.specs.Prelude.{List};
ghost use Rattle.spv_logic.specs.declared.conditions.TermId.{TermId};
ghost use Rattle.spv_term.specs.declared.nodes.Condition.{Condition};
ghost use Rattle.spv_verdicts.specs.Verdicts.{Limits};
ghost use Rattle.spv_search.specs.branches.Growth.{Growth};
ghost use Rattle.spv_trail.specs.trail_states.Laws.{IsAtRest};
ghost use Rattle.spv_trail.specs.declared.backtracking.path.Ground.{Ground};
ghost use Rattle.spv_trail.specs.declared.backtracking.marks.TrailMark.{TrailMark};
ghost use Rattle.spv_search.specs.Searching.{formulas_in};
ghost use Rattle.spv_search.specs.Finding.{IsResting};
ghost use Rattle.spv_share.specs.Both.{told};

use spv_term::Terms;
use spv_trail::backtracking::BranchTrail;

/// Such a path is at rest.
pub(crate) fn law_rest(terms: &Terms, path: &BranchTrail)
    ensures { (c : Condition) (ids : List TermId) (g : Ground) (limits : Limits) (s : Growth) (ms : List TrailMark) → IsResting terms.now c ids g limits path.now s ms
        → IsAtRest terms.now c path.now.both ids g.questions.items path.now.derivation path.now.known.items (formulas_in terms.now s.cases) }
{
    terms.law_arena();
    path.both.trail.graph.law_same();
    path.both.trail.graph.law_terms();
    path.both.standing.tableau.law_tableau();
}
