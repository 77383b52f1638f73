// Rows as sums of terms.

ghost use Rattle.std.specs.Prelude.{◌≡◌, ◌<◌, length, IfOk, OnOk};
ghost use Rattle.spv_logic.specs.declared.types.Sort.TheVariants as sort;
ghost use Rattle.spv_term.specs.Arena.{sort_at, Extends};

use spv_atoms::{Linear, linear};
use spv_logic::list::List;
use spv_logic::names::Symbol;
use spv_term::{Head, Shapes, Sort, TermFault, TermId, Terms};
use std::alloc::{AllocError, Global};

// How many terms all rows may have.
const MOST: u32 = 10_000_000;

// The variable of a part.
fn variable(terms: &mut Terms, part: u32) -> Result<TermId, TermFault>
    ensures in_range { IfOk result (λ t. t.0 < length terms.new.nodes) }
    ensures int { IfOk result (λ t. sort_at terms.new t ≡ sort.Int) }
    ensures grows { Extends terms.old terms.new }
{
    terms.make(Head::Var(Symbol(part), Sort::Int, 0), &[])
}

// A whole number.
fn number(terms: &mut Terms, n: i64) -> Result<TermId, TermFault>
    ensures in_range { IfOk result (λ t. t.0 < length terms.new.nodes) }
    ensures int { IfOk result (λ t. sort_at terms.new t ≡ sort.Int) }
    ensures grows { Extends terms.old terms.new }
{
    terms.make(Head::Num(i128::from(n)), &[])
}

// A whole number times a part.
#[tactic(auto, using(spv_term::proofs::ArenaLemmas::growth))]
fn scaled(terms: &mut Terms, part: u32, n: i64) -> Result<TermId, TermFault>
    ensures in_range { IfOk result (λ t. t.0 < length terms.new.nodes) }
    ensures int { IfOk result (λ t. sort_at terms.new t ≡ sort.Int) }
    ensures grows { Extends terms.old terms.new }
{
    let number = number(terms, n)?;
    let part = variable(terms, part)?;
    terms.make(Head::Mul, &[number, part])
}

// A sum, and a whole number times a part more.
#[tactic(auto, using(spv_term::proofs::ArenaLemmas::growth))]
fn with_part(terms: &mut Terms, sum: TermId, part: u32, n: i64) -> Result<TermId, TermFault>
    requires in_range { sum.0 < length terms.old.nodes }
    requires int { sort_at terms.old sum ≡ sort.Int }
    ensures in_range { IfOk result (λ t. t.0 < length terms.new.nodes) }
    ensures int { IfOk result (λ t. sort_at terms.new t ≡ sort.Int) }
{
    let more = scaled(terms, part, n)?;
    terms.make(Head::Add, &[sum, more])
}

// The sum of parts, each behind its number.
fn sum_of(terms: &mut Terms, numbers: &[i64]) -> Result<TermId, TermFault>
    ensures { IfOk result (λ t. t.0 < length terms.new.nodes) }
{
    let mut sum = number(terms, 0)?;
    let mut rest = numbers;
    while let [part, factor, after @ ..] = rest {
        let part = u32::try_from(*part).unwrap_or(0);
        sum = with_part(terms, sum, part, *factor)?;
        rest = after;
    }
    Ok(sum)
}

/// The row of parts, each behind its number; none where it does not fit.
pub fn row(
    alloc: Global,
    terms: &mut Terms,
    numbers: &[i64],
) -> Result<Option<Linear>, AllocError> {
    match sum_of(terms, numbers) {
        Ok(sum) => match linear(alloc, terms, sum) {
            Ok(row) => Ok(Some(row)),
            Err(_) => Ok(None),
        },
        Err(_) => Ok(None),
    }
}

/// An arena whose first terms are so many parts, so that a part's id is its number.
pub fn parts(alloc: Global, count: u32) -> Result<Terms, TermFault> {
    let mut terms = Terms::new(alloc, Shapes::new(alloc), List::new(alloc), MOST);
    for part in 0..count {
        variable(&mut terms, part)?;
    }
    Ok(terms)
}
