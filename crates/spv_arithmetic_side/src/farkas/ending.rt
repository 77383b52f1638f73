// A contradiction of bounds as a fact.

ghost use Rattle.std.specs.Prelude.{◌≡◌, map, None, IfOk, OnErr};
ghost use Rattle.spv_term.specs.Arena.{Arena, IsArena};
ghost use Rattle.spv_proof_rules.specs.Effects.{at_most};
ghost use Rattle.spv_derivations.specs.derivation.Derivation.{Gains, IsDerivation};
ghost use Rattle.spv_derivations.specs.derivation.Literals.{literals};
ghost use Rattle.spv_arithmetic_side.specs.bounds.Multiples.{multiple_in};
ghost use Rattle.spv_arithmetic_side.specs.bounds.Sources.{sources_in};
ghost use Rattle.spv_tableau_rules.specs.constraints.Laws.{numeral_of};
ghost use Rattle.spv_arithmetic_side.specs.farkas.Refuted.{AreOneAndZero, IsRefuted};

use crate::bounds::{RowSources, fact_multiples};
use spv_atoms::Relation;
use spv_derivations::derivation::Derivation;
use spv_frac::Frac;
use spv_logic::list::List;
use spv_tableau_rules::tableaux::Side;
use spv_term::TermId;
use std::alloc::{AllocError, Global};

/// The number of the fact that 1 is at most 0, which ends the path: it follows from the facts that the bounds of a
/// contradiction come from, so multiplied. After an error the derivation is as it was.
pub fn contradiction(
    alloc: Global,
    derivation: &mut Derivation,
    one: TermId,
    zero: TermId,
    combination: &[(u32, Side, Frac)],
    sources: &[RowSources],
) -> Result<u32, AllocError>
    ensures gains { IfOk result (λ n. (a : Arena) → IsArena a → IsDerivation a derivation.old → AreOneAndZero a one zero
        → IsRefuted a derivation.old (sources_in sources.now) (map multiple_in combination.now)
        → Gains a derivation.old derivation.new n (at_most (numeral_of 1) (numeral_of 0))) }
    ensures err { OnErr result (derivation.new ≡ derivation.old) }
    ensures literals { literals derivation.new ≡ literals derivation.old }
{
    let multiples = fact_multiples(alloc, combination, sources)?;
    derivation.linear(Relation::AtMost(one, zero), multiples, List::new(alloc))
}
