// Sums of multiples of facts, number by number.

ghost use Rattle.std.specs.Prelude.{◌≡◌, List, length, IsTrue, IfOk, OnOk, IfErr};
ghost use Rattle.std.specs.Option.{option_map};
ghost use Rattle.spv_whole.specs.Fraction as fraction;
ghost use Rattle.spv_frac.specs.Range.{fits};
ghost use Rattle.spv_logic.specs.Terms.{Term};
ghost use Rattle.spv_term.specs.Arena.{Arena, AllBelow, IsArena, trees_of};
ghost use Rattle.spv_atoms.specs.Linear.{ArePartsFrom};
ghost use Rattle.spv_proof_rules.specs.Stops as stops;
ghost use Rattle.spv_proof_rules.specs.Stops.{Stands};
ghost use Rattle.spv_proof.specs.sums.Readings.{ClaimIn};
ghost use Rattle.spv_proof.specs.sums.Partials.{FactorsIn};
ghost use Rattle.spv_proof.specs.sums.Added.{HaltsAs, AddsParts, StopsParts, AddsForm, StopsForm, IsAdded, StopsAt, IsSummed, StopsSum};

use crate::sums::difference::Form;
use crate::sums::fault::SumFault;
use crate::sums::measure::form_of;
use crate::sums::partial::PartialSum;
use crate::sums::reading::{Claim, find_cited};
use spv_frac::{Frac, Op, law_frac};
use spv_term::{TermId, Terms};
use std::alloc::Global;

// A whole number as a fraction.
fn whole(n: i128) -> Frac
    requires { IsTrue (fits n) }
    ensures { result ≡ fraction.whole n }
{
    Frac { num: n, den: 1 }
}

// n times m, added to what stands.
fn add_number(m: Frac, stood: Frac, n: i128) -> Result<Frac, SumFault>
    requires { IsTrue (fits n) }
    ensures value { IfOk result (λ f. (known : List Term) → stops.add_number known m stood n ≡ Stands f) }
    ensures stop { IfErr result (λ e. (a : Arena) → HaltsAs a e (λ most shown. stops.add_number (trees_of a.nodes) m stood n)) }
{
    let number = whole(n);
    let Ok(product) = number.mul(m) else {
        return Err(SumFault::Wide(Op::Mul, number, m));
    };
    let Ok(sum) = stood.add(product) else {
        return Err(SumFault::Wide(Op::Add, stood, product));
    };
    Ok(sum)
}

// A multiple of parts, added to a sum one after the other.
fn add_parts(sum: &mut PartialSum, m: Frac, parts: &[(TermId, i128)]) -> Result<(), SumFault>
    requires { ArePartsFrom 0 parts.now }
    ensures added { OnOk result (AddsParts m parts.now sum.old sum.new) }
    ensures stop { IfErr result (λ e. StopsParts m parts.now sum.old e) }
{
    for part in parts {
        let factor = add_number(m, sum.factor(part.0), part.1)?;
        sum.set_factor(part.0, factor)?;
    }
    Ok(())
}

// A multiple of a form, added to a sum: its parts, and then its constant.
fn add_form(sum: &mut PartialSum, m: Frac, form: &Form) -> Result<(), SumFault>
    ensures added { OnOk result (AddsForm m form.now sum.old sum.new) }
    ensures stop { IfErr result (λ e. StopsForm m form.now sum.old e) }
{
    form.law_form();
    add_parts(sum, m, form.parts())?;
    let constant = add_number(m, sum.constant(), form.constant())?;
    sum.set_constant(constant);
    Ok(())
}

// A multiple of what a number stands for, added to a sum; false where the step does not follow.
fn add_cited(
    alloc: Global,
    terms: &Terms,
    facts: &[TermId],
    claim: Claim,
    sum: &mut PartialSum,
    m: Frac,
    number: u32,
) -> Result<bool, SumFault>
    requires facts { AllBelow (length terms.now.nodes) facts.now }
    requires claim { ClaimIn terms.now claim }
    requires sum { FactorsIn terms.now sum.old.parts }
    ensures added { IfOk result (λ b. IsAdded terms.now facts.now claim m number sum.old sum.new b) }
    ensures stop { IfErr result (λ e. StopsAt terms.now facts.now claim m number sum.old e) }
{
    terms.law_arena();
    law_frac(&m);
    let Some(source) = find_cited(terms, facts, claim, number) else {
        return Ok(false);
    };
    if !source.may_multiply(m) {
        return Ok(false);
    }
    let Some(form) = form_of(alloc, terms, source.left, source.right, source.is_above)? else {
        return Err(source.fault());
    };
    form.law_form();
    add_form(sum, m, &form)?;
    Ok(true)
}

// The sum of the cited multiples, one after the other; `None` where the step does not follow.
pub(crate) fn sum_of(
    alloc: Global,
    terms: &Terms,
    facts: &[TermId],
    claim: Claim,
    multiples: &[(Frac, u32)],
) -> Result<Option<PartialSum>, SumFault>
    requires facts { AllBelow (length terms.now.nodes) facts.now }
    requires claim { ClaimIn terms.now claim }
    ensures summed { IfOk result (λ sum. IsSummed terms.now facts.now claim multiples.now sum) }
    ensures stop { IfErr result (λ e. StopsSum terms.now facts.now claim multiples.now e) }
{
    let mut sum = PartialSum::new(alloc);
    for multiple in multiples {
        if !add_cited(alloc, terms, facts, claim, &mut sum, multiple.0, multiple.1)? {
            return Ok(None);
        }
    }
    Ok(Some(sum))
}
