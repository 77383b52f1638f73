// Opening both sides for some atoms.

ghost use Rattle.std.specs.Prelude.{◌≡◌, ◌<◌, ◌≤◌, [], ◌∷◌, map, length, IfOk, IfErr};
ghost use Rattle.spv_term.specs.Arena.{AllBelow, IsArena, tree};
ghost use Rattle.spv_arithmetic_side.specs.slack_rows.Rows.{IsWideAmong};
ghost use Rattle.spv_share.specs.Relations.{AreAmong, AreListed, AreNodes, AreParts, AreRelationsAmong};
ghost use Rattle.spv_share.specs.Both.{AreEnds, IsBoth, told};

use crate::both::{Both, Ends};
use crate::relations::gather;
use spv_arithmetic_side::constraint_rows::Standing;
use spv_arithmetic_side::slack_rows::{RowFault, relation_rows};
use spv_explanations::congruence_side::Trail;
use spv_term::{TermId, Terms};
use std::alloc::Global;

impl Both {
    /// Both sides for these atoms, without facts. A check of the tableau makes at most so many pivots. `Wide` names an atom that is
    /// a relation of whole numbers whose forms do not fit.
    pub fn open(
        alloc: Global,
        terms: &Terms,
        atoms: &[TermId],
        ends: Ends,
        pivots: u64,
    ) -> Result<Both, RowFault>
        requires below { AllBelow (length terms.now.nodes) atoms.now }
        requires ends { AreEnds terms.now ends }
        requires pivots { pivots ≤ 1000000 }
        ensures both { IfOk result (λ b. IsBoth terms.now b) }
        ensures told { IfOk result (λ b. told b ≡ []) }
        ensures nodes { IfOk result (λ b. AreNodes b.trail.graph.nodes atoms.now) }
        ensures parts { IfOk result (λ b. AreParts terms.now b.trail.graph.nodes (b.trail.truth ∷ b.trail.falsity ∷ atoms.now)) }
        ensures pivots { IfOk result (λ b. b.standing.tableau.pivots ≡ pivots) }
        ensures of_atoms { IfOk result (λ b. AreRelationsAmong terms.now (map (tree terms.now) atoms.now) b.relations.items) }
        ensures relations { IfOk result (λ b. AreAmong terms.now (map (tree terms.now) atoms.now) b.relations.items) }
        ensures listed { IfOk result (λ b. AreListed terms.now atoms.now b.relations.items) }
        ensures wide { IfErr result (λ fault. IsWideAmong terms.now atoms.now fault) }
    {
        let rows = relation_rows(alloc, terms, atoms)?;
        let mut trail = Trail::open(alloc, terms, ends.truth, ends.falsity)?;
        let relations = gather(alloc, terms, &mut trail, atoms)?;
        let standing = Standing::open(alloc, rows.forms, pivots)?;
        Ok(Both {
            trail,
            standing,
            relations,
            claims: Vec::new(alloc),
            one: ends.one,
            zero: ends.zero,
        })
    }
}
