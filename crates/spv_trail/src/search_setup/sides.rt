// The questions of a search, and both sides for its atoms.

ghost use Rattle.std.specs.Prelude.{◌≡◌, ◌≤◌, IfErr, IfOk};
ghost use Rattle.spv_arithmetic_side.specs.slack_rows.Rows.{IsWideAmong};
ghost use Rattle.spv_search_terms.specs.condition_copy.Copies.{IsBase};
ghost use Rattle.spv_models.specs.leaf_models.Laws.{AreFormulas};
ghost use Rattle.spv_models.specs.leaf_models.Tables.{formulas_of};
ghost use Rattle.spv_proof_rules.specs.Stand.{question};
ghost use Rattle.spv_trail.specs.backtracking.Paths.{IsGround};
ghost use Rattle.spv_trail.specs.search_setup.Openings.{AreAsked, AreQuestions, AreSides};

use crate::backtracking::Ground;
use spv_arithmetic_side::slack_rows::RowFault;
use spv_assignments::kleene::connectives_of;
use spv_search_terms::condition_copy::Base;
use spv_search_terms::split_candidates::Questions;
use spv_search_terms::subterms::IdSet;
use spv_share::{Both, Ends};
use spv_term::{Condition, TermId, Terms};
use std::alloc::{AllocError, Global};

// The same terms as a vector.
fn copied(alloc: Global, items: &[TermId]) -> Result<Vec<TermId>, AllocError>
    ensures { IfOk result (λ copy. copy.items ≡ items.now) }
{
    let mut copy = Vec::new(alloc);
    copy.extend_from_slice(items)?;
    Ok(copy)
}

/// The questions of a condition, and the connectives of its arena.
pub(crate) fn ground_of(
    alloc: Global,
    terms: &Terms,
    condition: &Condition,
    questions: &IdSet,
) -> Result<Ground, AllocError>
    requires formulas { AreFormulas terms.now.shapes terms.now.decls (formulas_of (question terms.now condition.now).sequent) }
    requires questions { AreQuestions terms.now condition.now questions.now }
    ensures is { IfOk result (λ g. IsGround terms.now condition.now g) }
    ensures questions { IfOk result (λ g. g.questions.items ≡ questions.now) }
{
    let _ = condition;
    let asked = copied(alloc, questions.as_slice())?;
    let connectives = connectives_of(alloc, terms)?;
    Ok(Ground {
        questions: asked,
        connectives,
    })
}

/// Both sides for the atoms of a condition: each question of it is in the graph.
pub(crate) fn both_for(
    alloc: Global,
    terms: &Terms,
    condition: &Condition,
    questions: &Questions,
    base: Base,
    pivots: u64,
) -> Result<Both, RowFault>
    requires formulas { AreFormulas terms.now.shapes terms.now.decls (formulas_of (question terms.now condition.now).sequent) }
    requires asked { AreAsked terms.now condition.now questions.now }
    requires base { IsBase terms.now base }
    requires pivots { pivots ≤ 1000000 }
    ensures sides { IfOk result (λ b. AreSides terms.now condition.now questions.now pivots b) }
    ensures wide { IfErr result (λ fault. IsWideAmong terms.now questions.now.atoms.items fault) }
{
    let _ = condition;
    terms.law_arena();
    let ends = Ends {
        truth: base.truth,
        falsity: base.falsity,
        one: base.one,
        zero: base.zero,
    };
    match Both::open(alloc, terms, questions.atoms.as_slice(), ends, pivots) {
        Ok(both) => {
            both.trail.graph.law_terms();
            Ok(both)
        }
        Err(fault) => Err(fault),
    }
}
