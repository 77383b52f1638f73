// What the tableau tells the graph: equalities that the bounds force.

ghost use Rattle.std.specs.Prelude.{◌≡◌, ◌<◌, ◌+◌, length, true, false, Some, slice_get, IfOk, OnOk, IsTrue};
ghost use Rattle.spv_term.specs.Arena.{IsArena, tree};
ghost use Rattle.spv_proof_rules.specs.Sums.{refutes};
ghost use Rattle.spv_derivations.specs.derivation.Derivation.{facts};
ghost use Rattle.spv_derivations.specs.derivation.Derived.{is_number};
ghost use Rattle.spv_simplex.specs.State.{IsTableau};
ghost use Rattle.spv_simplex.specs.Checks.{IsFeasible};
ghost use Rattle.spv_arithmetic_side.specs.constraint_rows.Standing.{IsStanding};
ghost use Rattle.spv_share.specs.declared.relations.Related.{Related};
ghost use Rattle.spv_share.specs.declared.both.Both.{Both};
ghost use Rattle.spv_share.specs.Both.{IsSound};
ghost use Rattle.spv_share.specs.States as spec;
ghost use Rattle.spv_share.specs.States.{AreSifted, GoesOn, IsApart, IsFound, IsSought};

use crate::both::Both;
use crate::relations::Related;
use spv_arithmetic_side::constraint_rows::Tried;
use spv_frac::Frac;
use spv_logic::list::List;
use spv_tableau_rules::constraints::RowConstraint;
use spv_term::Terms;
use std::alloc::{AllocError, Global};

// What came of looking at equalities.
#[derive(Clone, Copy, Debug)]
pub(crate) enum Sought {
    // None is forced.
    Apart,
    // One was forced, and the graph joins it.
    Joined,
    // A check of the tableau was stopped.
    Stopped,
}

impl Both {
    // Whether bounds keep the sides of an equality apart.
    fn is_ordered(&self, related: Related) -> bool
        requires standing { IsStanding self.now.standing }
        requires row { related.row < length self.now.standing.tableau.forms }
        ensures { IsTrue result → IsApart self.now.standing related.row }
    {
        self.standing.stands(related.row, RowConstraint::Above)
            || self.standing.stands(related.row, RowConstraint::Below)
    }

    // Whether the kept point has the sides of an equality at a distance of 1 or more.
    fn is_split(&self, related: Related) -> bool
        requires standing { IsStanding self.now.standing }
        requires row { related.row < length self.now.standing.tableau.forms }
        requires kept { IsTableau self.now.standing.tableau }
        requires point { IsFeasible self.now.standing.tableau }
        ensures { IsTrue result → IsApart self.now.standing related.row }
    {
        self.standing.is_met(related.row, RowConstraint::Above)
            || self.standing.is_met(related.row, RowConstraint::Below)
    }

    // Whether bounds or the kept point keep the sides of an equality apart.
    fn is_kept(&self, related: Related) -> bool
        requires standing { IsStanding self.now.standing }
        requires row { related.row < length self.now.standing.tableau.forms }
        requires kept { IsTableau self.now.standing.tableau }
        requires point { IsFeasible self.now.standing.tableau }
        ensures { IsTrue result → IsApart self.now.standing related.row }
    {
        self.is_ordered(related) || self.is_split(related)
    }

    // Whether nothing is to be found out of the relation at a place.
    fn is_kept_apart(&self, terms: &Terms, place: usize) -> bool
        requires sound { IsSound terms.now self.now }
        requires kept { IsTableau self.now.standing.tableau }
        requires point { IsFeasible self.now.standing.tableau }
        requires place { place < length self.now.relations.items }
        ensures { IsTrue result → (r : Related) → slice_get self.now.relations.items place ≡ Some r → spec.is_open self.now r ≡ true → IsApart self.now.standing place }
    {
        let _ = terms;
        let related = self.relations[place];
        if !self.is_open(related) {
            return true;
        }
        self.is_kept(related)
    }

    // The relation at a place waits no more, if nothing is to be found out of it.
    fn sift_at(&self, terms: &Terms, waits: &mut Vec<bool>, place: usize)
        requires sound { IsSound terms.now self.now }
        requires kept { IsTableau self.now.standing.tableau }
        requires point { IsFeasible self.now.standing.tableau }
        requires place { place < length self.now.relations.items }
        requires sifted { AreSifted self.now waits.old.items }
        ensures { AreSifted self.now waits.new.items }
    {
        if !waits[place] {
            return;
        }
        if self.is_kept_apart(terms, place) {
            waits[place] = false;
        }
    }

    // Those that the kept point keeps apart wait no more.
    fn sift(&self, terms: &Terms, waits: &mut Vec<bool>)
        requires sound { IsSound terms.now self.now }
        requires point { IsFeasible self.now.standing.tableau }
        requires sifted { AreSifted self.now waits.old.items }
        ensures { AreSifted self.now waits.new.items }
    {
        self.standing.tableau.law_tableau();
        for place in 0..self.relations.as_slice().len() {
            self.sift_at(terms, waits, place);
        }
    }

    // Which of the relations wait: equalities that the graph does not join, and that neither bounds nor the kept point keep apart.
    fn candidates(&self, alloc: Global, terms: &Terms) -> Result<Vec<bool>, AllocError>
        requires sound { IsSound terms.now self.now }
        requires point { IsFeasible self.now.standing.tableau }
        ensures { IfOk result (λ v. AreSifted self.now v.items) }
    {
        let count = self.relations.as_slice().len();
        let mut waits = vec![in alloc; true; count]?;
        self.sift(terms, &mut waits);
        Ok(waits)
    }

    // The graph joins the sides of an equality, by two sums.
    fn join(
        &mut self,
        terms: &Terms,
        related: Related,
        first: List<(Frac, u32)>,
        second: List<(Frac, u32)>,
    ) -> Result<(), AllocError>
        requires sound { IsSound terms.now self.old }
        requires there { slice_get self.old.relations.items related.row ≡ Some related }
        requires unjoined { spec.is_open self.old related ≡ true }
        requires first { refutes (is_number terms.now) (facts terms.now self.old.trail.derivation) (tree terms.now related.left) (tree terms.now related.right) first ≡ true }
        requires second { refutes (is_number terms.now) (facts terms.now self.old.trail.derivation) (tree terms.now related.right) (tree terms.now related.left) second ≡ true }
        ensures goes { GoesOn terms.now self.old self.new }
        ensures standing { self.new.standing ≡ self.old.standing }
        ensures closed { OnOk result (spec.is_open self.new related ≡ false) }
    {
        terms.law_arena();
        self.trail.graph.law_same();
        let joined = self
            .trail
            .join_by_sums(terms, related.left, related.right, first, second);
        self.trail.graph.law_same();
        joined
    }

    // The second half of a search: the left side is not above the right one; may it be below?
    fn seek_below(
        &mut self,
        alloc: Global,
        terms: &Terms,
        waits: &mut Vec<bool>,
        related: Related,
        first: List<(Frac, u32)>,
    ) -> Result<Sought, AllocError>
        requires sound { IsSound terms.now self.old }
        requires there { slice_get self.old.relations.items related.row ≡ Some related }
        requires unjoined { spec.is_open self.old related ≡ true }
        requires first { refutes (is_number terms.now) (facts terms.now self.old.trail.derivation) (tree terms.now related.left) (tree terms.now related.right) first ≡ true }
        requires sifted { AreSifted self.old waits.old.items }
        ensures goes { GoesOn terms.now self.old self.new }
        ensures found { IfOk result (λ s. IsFound self.old self.new related s) }
        ensures sifted { IfOk result (λ s. AreSifted self.new waits.new.items) }
    {
        terms.law_arena();
        let tried = self
            .standing
            .try_saying(alloc, related.row, RowConstraint::Below)?;
        match tried {
            Tried::Met => {
                self.sift(terms, waits);
                Ok(Sought::Apart)
            }
            Tried::Stopped => Ok(Sought::Stopped),
            Tried::Refuted(second) => {
                self.join(terms, related, first, second)?;
                Ok(Sought::Joined)
            }
        }
    }

    // Whether a point meets the bounds with one side of an equality above the other; else the graph joins them.
    fn seek_point(
        &mut self,
        alloc: Global,
        terms: &Terms,
        waits: &mut Vec<bool>,
        related: Related,
    ) -> Result<Sought, AllocError>
        requires sound { IsSound terms.now self.old }
        requires there { slice_get self.old.relations.items related.row ≡ Some related }
        requires unjoined { spec.is_open self.old related ≡ true }
        requires sifted { AreSifted self.old waits.old.items }
        ensures goes { GoesOn terms.now self.old self.new }
        ensures found { IfOk result (λ s. IsFound self.old self.new related s) }
        ensures sifted { IfOk result (λ s. AreSifted self.new waits.new.items) }
    {
        terms.law_arena();
        let tried = self
            .standing
            .try_saying(alloc, related.row, RowConstraint::Above)?;
        match tried {
            Tried::Met => {
                self.sift(terms, waits);
                Ok(Sought::Apart)
            }
            Tried::Stopped => Ok(Sought::Stopped),
            Tried::Refuted(first) => self.seek_below(alloc, terms, waits, related, first),
        }
    }

    // Looks at the relation at a place, if it is an equality that the graph does not join.
    fn seek_open(
        &mut self,
        alloc: Global,
        terms: &Terms,
        waits: &mut Vec<bool>,
        place: usize,
    ) -> Result<Sought, AllocError>
        requires sound { IsSound terms.now self.old }
        requires place { place < length self.old.relations.items }
        requires sifted { AreSifted self.old waits.old.items }
        ensures goes { GoesOn terms.now self.old self.new }
        ensures found { IfOk result (λ s. (r : Related) → slice_get self.old.relations.items place ≡ Some r → IsFound self.old self.new r s) }
        ensures sifted { IfOk result (λ s. AreSifted self.new waits.new.items) }
    {
        let related = self.relations[place];
        if !self.is_open(related) {
            return Ok(Sought::Apart);
        }
        self.seek_point(alloc, terms, waits, related)
    }

    // The same, if it waits.
    fn seek_at(
        &mut self,
        alloc: Global,
        terms: &Terms,
        waits: &mut Vec<bool>,
        place: usize,
    ) -> Result<Sought, AllocError>
        requires sound { IsSound terms.now self.old }
        requires place { place < length self.old.relations.items }
        requires sifted { AreSifted self.old waits.old.items }
        ensures goes { GoesOn terms.now self.old self.new }
        ensures found { IfOk result (λ s. (r : Related) → slice_get self.old.relations.items place ≡ Some r → IsFound self.old self.new r s) }
        ensures sifted { IfOk result (λ s. AreSifted self.new waits.new.items) }
    {
        if !waits[place] {
            return Ok(Sought::Apart);
        }
        self.seek_open(alloc, terms, waits, place)
    }

    // Looks at one place more, unless a check was stopped.
    fn seek_on(
        &mut self,
        alloc: Global,
        terms: &Terms,
        waits: &mut Vec<bool>,
        place: usize,
        so_far: Sought,
    ) -> Result<Sought, AllocError>
        requires sound { IsSound terms.now self.old }
        requires place { place < length self.old.relations.items }
        requires sifted { AreSifted self.old waits.old.items }
        ensures goes { GoesOn terms.now self.old self.new }
        ensures sought { IfOk result (λ s. (start : Both) → self.old.relations.items ≡ start.relations.items → IsSought start self.old place so_far → IsSought start self.new (place + 1) s) }
        ensures sifted { IfOk result (λ s. AreSifted self.new waits.new.items) }
    {
        match so_far {
            Sought::Stopped => Ok(Sought::Stopped),
            Sought::Joined => Ok(joined(self.seek_at(alloc, terms, waits, place)?)),
            Sought::Apart => self.seek_at(alloc, terms, waits, place),
        }
    }

    // Looks at all equalities that the graph does not join. Each point that is found is tried on all that wait: an equality whose sides
    // it keeps at a distance of 1 or more needs no check.
    pub(crate) fn seek(&mut self, alloc: Global, terms: &Terms) -> Result<Sought, AllocError>
        requires sound { IsSound terms.now self.old }
        requires point { IsFeasible self.old.standing.tableau }
        ensures goes { GoesOn terms.now self.old self.new }
        ensures sought { IfOk result (λ s. IsSought self.old self.new (length self.old.relations.items) s) }
    {
        let mut waits = self.candidates(alloc, terms)?;
        let mut sought = Sought::Apart;
        for place in 0..self.relations.as_slice().len() {
            sought = self.seek_on(alloc, terms, &mut waits, place, sought)?;
        }
        Ok(sought)
    }
}

// After one was joined.
fn joined(found: Sought) -> Sought
    ensures { result ≡ spec.after_joined found }
{
    match found {
        Sought::Stopped => Sought::Stopped,
        _ => Sought::Joined,
    }
}
