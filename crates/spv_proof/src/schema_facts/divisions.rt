//! Numbers that numerals divide.

ghost use Rattle.std.specs.Prelude.{◌≡◌, ◌<◌, ℤ, pos, IfSome, IfNone, IsTrue, length, map};
ghost use Rattle.spv_logic.specs.declared.operators.Head.TheVariants.{Num};
ghost use Rattle.spv_logic.specs.Sorts.{numeral_fits};
ghost use Rattle.spv_schemas.specs.Facts as facts;
ghost use Rattle.spv_term.specs.Arena.{AllBelow, IsArena, tree};
ghost use Rattle.spv_proof.specs.schema_facts.Shapes.{IsNumeral, IsDivided, AreDivided};

use crate::schema_facts::facts::{Division, NumeralDivision};
use crate::schema_facts::shapes::two;
use crate::sums::is_number;
use spv_term::{TermId, Terms};

// The number of a numeral.
fn numeral(terms: &Terms, t: TermId) -> Option<i128>
    requires { t.0 < length terms.now.nodes }
    ensures there { IfSome result (IsNumeral terms.now t) }
    ensures missing { IfNone result ((z : ℤ) → tree terms.now t ≡ facts.numeral z → ⊥) }
{
    terms.law_arena();
    spv_atoms::numeral(terms, t)
}

// That of a numeral which is not 0.
fn nonzero(terms: &Terms, t: TermId) -> Option<i128>
    requires { t.0 < length terms.now.nodes }
    ensures there { IfSome result (IsNumeral terms.now t) }
    ensures nonzero { IfSome result (λ z. z ≡ pos 0 → ⊥) }
    ensures missing { IfNone result ((z : ℤ) → tree terms.now t ≡ facts.numeral z → z ≡ pos 0) }
{
    let number = numeral(terms, t)?;
    if number == 0 { None } else { Some(number) }
}

// The greatest remainder of a division by this number.
fn greatest(divisor: i128) -> i128
    requires fits { IsTrue (numeral_fits (Num divisor)) }
    requires nonzero { divisor ≡ pos 0 → ⊥ }
    ensures { result ≡ facts.greatest divisor }
{
    (divisor.unsigned_abs() - 1) as i128
}

/// A number and a numeral to divide it by, which is not 0.
pub(crate) fn divided(terms: &Terms, ts: &[TermId]) -> Option<Division>
    requires { AllBelow (length terms.now.nodes) ts.now }
    ensures { IsDivided terms.now (map (tree terms.now) ts.now) result }
{
    terms.law_arena();
    let (dividend, divisor) = two(ts)?;
    let number = nonzero(terms, divisor)?;
    if !is_number(terms, dividend) {
        return None;
    }
    let greatest = greatest(number);
    Some(Division {
        dividend,
        divisor,
        greatest,
        least: -greatest,
    })
}

/// A numeral and another one to divide it by, which is not 0.
pub(crate) fn numerals(terms: &Terms, ts: &[TermId]) -> Option<NumeralDivision>
    requires { AllBelow (length terms.now.nodes) ts.now }
    ensures { AreDivided terms.now (map (tree terms.now) ts.now) result }
{
    let (dividend, divisor) = two(ts)?;
    let by = nonzero(terms, divisor)?;
    let number = numeral(terms, dividend)?;
    Some(NumeralDivision {
        dividend,
        divisor,
        quotient: number / by,
        remainder: number % by,
    })
}
