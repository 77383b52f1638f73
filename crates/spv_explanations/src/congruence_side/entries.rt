// Entries of a derivation that a trail needs, with their numbers.

ghost use Rattle.std.specs.Prelude.{◌≡◌, ◌++◌, ◌∷◌, [], length, Some, IfOk, OnOk};
ghost use Rattle.spv_logic.specs.declared.operators.Head.TheVariants as head;
ghost use Rattle.spv_logic.specs.Terms.{term, no_terms};
ghost use Rattle.spv_logic.specs.Formulas.{equation, negation};
ghost use Rattle.spv_term.specs.Arena.{Arena, tree};
ghost use Rattle.spv_atoms.specs.declared.proofs.Relation.TheVariants as relation;
ghost use Rattle.spv_proof_rules.specs.Stand.{In};
ghost use Rattle.spv_derivations.specs.derivation.Derivation.{IsDerivation, PartFits, fact_at, literal};
ghost use Rattle.spv_derivations.specs.derivation.Derived.{IsApart, IsFormula, IsFalseTerm, IsSum, IsTrueTerm};
ghost use Rattle.spv_derivations.specs.declared.derivation.entries.Entry.TheVariants as entry;
ghost use Rattle.spv_derivations.specs.derivation.Literals.{literals};
ghost use Rattle.spv_derivations.specs.derivation.Sides.{entry_sides, sides_at};
ghost use Rattle.spv_explanations.specs.congruence_side.Holding.{Denies, Moves};

use spv_atoms::Relation;
use spv_derivations::derivation::{Derivation, Part};
use spv_frac::Frac;
use spv_logic::list::List;
use spv_term::TermId;
use std::alloc::AllocError;

// The number of the last fact of a derivation.
fn last_number(derivation: &Derivation) -> Result<u32, AllocError>
    ensures { IfOk result (λ n. n ≡ length derivation.now) }
{
    let count = derivation.len();
    if count > u32::MAX as usize {
        return Err(AllocError);
    }
    Ok(count as u32)
}

/// A literal is told.
pub(crate) fn told_entry(
    derivation: &mut Derivation,
    t: TermId,
    part: Part,
    why: u32,
) -> Result<u32, AllocError>
    ensures moves { (a : Arena) → IsDerivation a derivation.old → In a t → PartFits a t part → Moves a derivation.old derivation.new }
    ensures fact { IfOk result (λ n. (a : Arena) → fact_at a derivation.new n ≡ Some (literal (tree a t) part)) }
    ensures sides { IfOk result (λ n. (a : Arena) → sides_at a derivation.new n ≡ entry_sides a (entry.Told t part why)) }
    ensures literals { OnOk result (literals derivation.new ≡ literals derivation.old ++ record { atom = t; part = part; why = why } ∷ []) }
{
    derivation.told(t, part, why)?;
    last_number(derivation)
}

/// A formula that is a fact equals TRUE.
pub(crate) fn true_entry(
    derivation: &mut Derivation,
    t: TermId,
    truth: TermId,
    k: u32,
) -> Result<u32, AllocError>
    ensures moves { (a : Arena) → IsDerivation a derivation.old → IsFormula a t → IsTrueTerm a truth
        → fact_at a derivation.old k ≡ Some (tree a t) → Moves a derivation.old derivation.new }
    ensures sides { IfOk result (λ n. (a : Arena) → sides_at a derivation.new n ≡ Some (t, truth)) }
    ensures literals { literals derivation.new ≡ literals derivation.old }
{
    derivation.equal_to_true(t, truth, k)?;
    last_number(derivation)
}

/// A formula whose negation is a fact equals FALSE.
pub(crate) fn false_entry(
    derivation: &mut Derivation,
    t: TermId,
    falsity: TermId,
    k: u32,
) -> Result<u32, AllocError>
    ensures moves { (a : Arena) → IsDerivation a derivation.old → IsFormula a t → IsFalseTerm a falsity
        → fact_at a derivation.old k ≡ Some (negation (tree a t)) → Moves a derivation.old derivation.new }
    ensures sides { IfOk result (λ n. (a : Arena) → sides_at a derivation.new n ≡ Some (t, falsity)) }
    ensures literals { literals derivation.new ≡ literals derivation.old }
{
    derivation.equal_to_false(t, falsity, k)?;
    last_number(derivation)
}

/// An equation, of which a fact puts one side below the other, equals FALSE.
pub(crate) fn apart_entry(
    derivation: &mut Derivation,
    t: TermId,
    falsity: TermId,
    k: u32,
) -> Result<u32, AllocError>
    ensures moves { (a : Arena) → IsDerivation a derivation.old → IsApart a derivation.old t k → IsFalseTerm a falsity
        → Moves a derivation.old derivation.new }
    ensures sides { IfOk result (λ n. (a : Arena) → sides_at a derivation.new n ≡ Some (t, falsity)) }
    ensures literals { literals derivation.new ≡ literals derivation.old }
{
    derivation.apart_is_false(t, falsity, k)?;
    last_number(derivation)
}

/// The negation of a formula that by a fact equals FALSE.
pub(crate) fn denied_entry(
    derivation: &mut Derivation,
    t: TermId,
    k: u32,
) -> Result<u32, AllocError>
    ensures moves { (a : Arena) → IsDerivation a derivation.old → Denies a derivation.old t k → Moves a derivation.old derivation.new }
    ensures fact { IfOk result (λ n. (a : Arena) → IsDerivation a derivation.old → Denies a derivation.old t k
        → fact_at a derivation.new n ≡ Some (negation (tree a t))) }
    ensures literals { literals derivation.new ≡ literals derivation.old }
{
    derivation.denied(t, k)
}

/// Two numbers are equal by sums, one for each direction.
pub(crate) fn sum_entry(
    derivation: &mut Derivation,
    s: TermId,
    t: TermId,
    first: List<(Frac, u32)>,
    second: List<(Frac, u32)>,
) -> Result<u32, AllocError>
    ensures moves { (a : Arena) → IsDerivation a derivation.old → IsSum a derivation.old (relation.Equal s t) first second
        → Moves a derivation.old derivation.new }
    ensures sides { IfOk result (λ n. (a : Arena) → sides_at a derivation.new n ≡ Some (s, t)) }
    ensures literals { literals derivation.new ≡ literals derivation.old }
{
    derivation.linear(Relation::Equal(s, t), first, second)?;
    last_number(derivation)
}
