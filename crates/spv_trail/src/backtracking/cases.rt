// A case comes to a path.

ghost use Rattle.std.specs.Prelude.{◌≡◌, ◌+◌, ◌++◌, ◌∷◌, [], List, length, IfOk, OnOk};
ghost use Rattle.spv_logic.specs.Terms.{Term};
ghost use Rattle.spv_term.specs.Arena.{tree};
ghost use Rattle.spv_derivations.specs.derivation.Derivation.{literal, PartFits};
ghost use Rattle.spv_trail.specs.backtracking.Paths.{GoesOn, IsAskedOf, IsSplitAtom, IsToldOrEnded, IsBranchTrail, WasToldWith};

use crate::asserted_steps::tell;
use crate::backtracking::path::{BranchTrail, Ground};
use crate::propagation::{End, contradiction, tell_literal};
use spv_assignments::partial_assignment::Known;
use spv_derivations::derivation::Part;
use spv_term::{Condition, TermId, Terms};
use std::alloc::{AllocError, Global};

impl BranchTrail {
    /// One case more, of an atom; `why` is its number among the cases. The path is told, or it ends by the case.
    pub fn tell_case(
        &mut self,
        alloc: Global,
        terms: &Terms,
        condition: &Condition,
        ground: &Ground,
        atom: TermId,
        part: Part,
        why: u32,
    ) -> Result<Option<End>, AllocError>
        requires asked { IsAskedOf terms.now condition.now ground.now self.old.both }
        requires told { WasToldWith terms.now condition.now why self.old }
        requires atom { IsSplitAtom terms.now condition.now self.old.both atom }
        requires part { PartFits terms.now atom part }
        ensures told { IfOk result (λ o. (cases : List Term) → IsBranchTrail terms.now condition.now cases self.old → why ≡ length cases + 1
            → IsToldOrEnded terms.now condition.now (cases ++ literal (tree terms.now atom) part ∷ []) self.new o) }
        ensures goes { OnOk result (GoesOn terms.now self.old self.new) }
    {
        let fact = tell(&mut self.derivation, terms, condition, atom, part, why)?;
        let added = Known {
            term: atom,
            part,
            fact,
        };
        let falsity = self.both.trail.falsity;
        let end = contradiction(
            alloc,
            &mut self.derivation,
            self.known.as_slice(),
            terms,
            condition,
            falsity,
            added,
        )?;
        match end {
            Some(end) => Ok(Some(end)),
            None => {
                tell_literal(&mut self.both, terms, atom, part, fact)?;
                self.known.push(added)?;
                self.settle(alloc, terms, condition, ground)?;
                Ok(None)
            }
        }
    }
}
