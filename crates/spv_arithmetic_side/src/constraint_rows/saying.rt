// What may be said of a row, and what excludes it.

ghost use Rattle.std.specs.Prelude.{◌≡◌, ℕ, ◌<◌, ◌∷◌, [], List, Option, length, false, not, ◌&&◌, IfOk, OnErr, IsTrue};
ghost use Rattle.spv_term.specs.Arena.{Arena, IsArena};
ghost use Rattle.spv_atoms.specs.Linear.{IdForm, PartsIn};
ghost use Rattle.spv_proof_rules.specs.Sums.{Reading};
ghost use Rattle.spv_proof_rules.specs.Effects.{at_most};
ghost use Rattle.spv_tableau_rules.specs.declared.tableaux.side.Side.TheVariants as side;
ghost use Rattle.spv_tableau_rules.specs.tableaux.Bounds.{Bound, bound_on, is_none};
ghost use Rattle.spv_simplex.specs.Checks.{HoldsAsserted};
ghost use Rattle.spv_derivations.specs.derivation.Derivation.{Gains, IsDerivation};
ghost use Rattle.spv_derivations.specs.derivation.Literals.{literals};
ghost use Rattle.spv_tableau_rules.specs.constraints.Laws.{numeral_of};
ghost use Rattle.spv_arithmetic_side.specs.farkas.Refuted.{AreOneAndZero};
ghost use Rattle.spv_arithmetic_side.specs.constraint_rows.Forcing.{IsRefutedBy, Refutes};
ghost use Rattle.spv_arithmetic_side.specs.constraint_rows.Said as spec;
ghost use Rattle.spv_arithmetic_side.specs.constraint_rows.Said.{AreOpposed, IsBare, IsContrary, IsGiven, IsOpposed, MaySay};
ghost use Rattle.spv_arithmetic_side.specs.constraint_rows.Standing.{AddsSome, HasSaid, IsStanding, readings, SaidBy, Sourced, Stands};

use crate::bounds::{RowSources, fact_multiples};
use crate::constraint_rows::forcing::Tried;
use crate::constraint_rows::standing::{Standing, says_equal};
use crate::farkas::{contradiction, law_refuted};
use spv_derivations::derivation::Derivation;
use spv_frac::Frac;
use spv_logic::list::List;
use spv_simplex::Side;
use spv_tableau_rules::constraints::{RowConstraint, Source};
use spv_term::TermId;
use std::alloc::{AllocError, Global};

// Whether this is a bound on the lower side.
fn has_lower(saying: RowConstraint) -> bool
    ensures { result ≡ spec.has_lower saying }
{
    match saying {
        RowConstraint::Equal => true,
        RowConstraint::Above => true,
        RowConstraint::AtLeast => true,
        _ => false,
    }
}

// Both sides of one row, each once.
fn two_sides(alloc: Global) -> Result<Vec<(u32, Side, Frac)>, AllocError>
    ensures { IfOk result (λ v. v.items ≡ spec.two_sides) }
{
    let mut sides = Vec::new(alloc);
    sides.push((0, Side::Lower, Frac::whole(1)))?;
    sides.push((0, Side::Upper, Frac::whole(1)))?;
    Ok(sides)
}

// The sources of one row alone.
fn one_row(alloc: Global, from: RowSources) -> Result<Vec<RowSources>, AllocError>
    ensures { IfOk result (λ v. v.items ≡ from ∷ []) }
{
    let mut sources = Vec::new(alloc);
    sources.push(from)?;
    Ok(sources)
}

impl Standing {
    // Whether no bound stands on a side of a row.
    fn is_free(&self, row: u32, side: Side) -> bool
        requires { row < length self.now.tableau.forms }
        ensures { result ≡ is_none (bound_on self.now.tableau.bounds row side) }
    {
        match self.tableau.bound(row, side) {
            Some(_) => false,
            None => true,
        }
    }

    // Whether no bound stands on a row.
    fn is_bare(&self, row: u32) -> bool
        requires { row < length self.now.tableau.forms }
        ensures bare { IsTrue result → IsBare self.now row }
        ensures other { IsBare self.now row → IsTrue result }
    {
        self.is_free(row, Side::Lower) && self.is_free(row, Side::Upper)
    }

    /// Says this of a row by a fact: the bounds that it is stand there then. The answer is false, and nothing changes, where
    /// something stands there that excludes it.
    pub fn say(&mut self, row: u32, saying: RowConstraint, fact: u32) -> bool
        requires standing { IsStanding self.old }
        requires row { row < length self.old.tableau.forms }
        requires may { MaySay self.old row saying }
        ensures standing { IsStanding self.new }
        ensures adds { AddsSome self.old self.new }
        ensures given { IsTrue result → IsGiven self.old self.new row saying }
        ensures opposed { result ≡ false → IsOpposed self.old row saying }
        ensures same { result ≡ false → self.new ≡ self.old }
        ensures sourced { (a : Arena) (read : ℕ → Option Reading) → Sourced a read self.old self.old.tableau.bounds
            → SaidBy a read self.old row saying fact → Sourced a read self.new self.new.tableau.bounds }
        ensures asserted { (known : List Bound) → HasSaid known self.old row saying → HoldsAsserted known self.old.tableau → HoldsAsserted known self.new.tableau }
    {
        if self.stands(row, saying) {
            return true;
        }
        if !self.is_bare(row) {
            return false;
        }
        self.assert_saying(row, saying, fact)
    }

    // Whether this is a lower bound, and an upper one stands.
    fn is_over(&self, row: u32, saying: RowConstraint) -> bool
        requires { row < length self.now.tableau.forms }
        ensures { result ≡ (spec.has_lower saying && not (is_none (bound_on self.now.tableau.bounds row side.Upper))) }
    {
        has_lower(saying) && !self.is_free(row, Side::Upper)
    }

    /// Where two bounds of a row come from that exclude each other: one of what stands there, and one of what a fact says of it.
    pub fn opposed(&self, row: u32, saying: RowConstraint, fact: u32) -> RowSources
        requires standing { IsStanding self.now }
        requires row { row < length self.now.tableau.forms }
        requires opposed { IsOpposed self.now row saying }
        ensures { AreOpposed self.now row saying fact result }
    {
        let said = Source {
            fact,
            is_equal: says_equal(saying),
        };
        let kept = self.sources[row as usize];
        if self.is_over(row, saying) {
            RowSources {
                lower: said,
                upper: kept.upper,
            }
        } else {
            RowSources {
                lower: kept.lower,
                upper: said,
            }
        }
    }

    // The multiples of facts that refute what a row excludes.
    fn opposed_multiples(
        &self,
        alloc: Global,
        row: u32,
        saying: RowConstraint,
    ) -> Result<List<(Frac, u32)>, AllocError>
        requires standing { IsStanding self.now }
        requires row { row < length self.now.tableau.forms }
        requires opposed { IsOpposed self.now row saying }
        ensures { IfOk result (λ list. Refutes self.now row saying list) }
    {
        law_refuted();
        let from = self.opposed(row, saying, 0);
        let sides = two_sides(alloc)?;
        let sources = one_row(alloc, from)?;
        fact_multiples(alloc, sides.as_slice(), sources.as_slice())
    }

    // What a row excludes is refuted.
    pub(crate) fn refute(
        &self,
        alloc: Global,
        row: u32,
        saying: RowConstraint,
    ) -> Result<Tried, AllocError>
        requires standing { IsStanding self.now }
        requires row { row < length self.now.tableau.forms }
        requires opposed { IsOpposed self.now row saying }
        ensures { IfOk result (λ t. IsRefutedBy self.now row saying t) }
    {
        let multiples = self.opposed_multiples(alloc, row, saying)?;
        Ok(Tried::Refuted(multiples))
    }
}

/// The number of the fact that 1 is at most 0, which ends the path: it follows from two facts whose bounds on one row exclude each
/// other. After an error the derivation is as it was.
pub fn end_opposed(
    alloc: Global,
    derivation: &mut Derivation,
    one: TermId,
    zero: TermId,
    from: RowSources,
) -> Result<u32, AllocError>
    ensures gains { IfOk result (λ n. (a : Arena) (row : ℕ) (f : IdForm) → IsArena a → IsDerivation a derivation.old → AreOneAndZero a one zero → PartsIn a f.parts
        → IsContrary a (readings a derivation.old) row f from → Gains a derivation.old derivation.new n (at_most (numeral_of 1) (numeral_of 0))) }
    ensures err { OnErr result (derivation.new ≡ derivation.old) }
    ensures literals { literals derivation.new ≡ literals derivation.old }
{
    let sides = two_sides(alloc)?;
    let sources = one_row(alloc, from)?;
    contradiction(
        alloc,
        derivation,
        one,
        zero,
        sides.as_slice(),
        sources.as_slice(),
    )
}
