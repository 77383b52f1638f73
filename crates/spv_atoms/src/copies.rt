// Copies of steps, in which facts may have other numbers.

ghost use Rattle.std.specs.Prelude.{◌≡◌, ℕ, map, IfOk};
ghost use Rattle.std.specs.Option.{option_map};
ghost use Rattle.spv_atoms.specs.Steps.{multiple_by, renumbered};

use crate::proofs::Step;
use spv_frac::Frac;
use spv_logic::TermId;
use spv_logic::list::List;
use std::alloc::{AllocError, Global};

/// Numbers for facts in place of those that they have.
pub trait FactNumbers {
    /// The number that takes a number's place.
    ghost number: { Self → ℕ → ℕ };

    /// The number that takes this one's place.
    fn number(&self, k: u32) -> u32
        ensures { result ≡ number self.now k };
}

/// The numbers that facts have.
#[derive(Clone, Copy, Debug)]
pub struct SameNumbers;

impl FactNumbers for SameNumbers {
    ghost number = { λ s k. k };

    fn number(&self, k: u32) -> u32 {
        k
    }
}

// The numbers in the place of these.
fn all_numbered<F: FactNumbers>(
    alloc: Global,
    numbers: &F,
    ks: &[u32],
) -> Result<List<u32>, AllocError>
    ensures { IfOk result (λ v. v ≡ map (F.number numbers.now) ks.now) }
{
    let mut list = List::new(alloc);
    for k in ks {
        list.push(numbers.number(*k))?;
    }
    Ok(list)
}

// Multiples of facts with other numbers.
fn multiples_numbered<F: FactNumbers>(
    alloc: Global,
    numbers: &F,
    multiples: &[(Frac, u32)],
) -> Result<List<(Frac, u32)>, AllocError>
    ensures { IfOk result (λ v. v ≡ map (multiple_by (F.number numbers.now)) multiples.now) }
{
    let mut list = List::new(alloc);
    for multiple in multiples {
        list.push((multiple.0, numbers.number(multiple.1)))?;
    }
    Ok(list)
}

/// The number in the place of one, if there is one.
pub fn optional_numbered<F: FactNumbers>(numbers: &F, k: Option<u32>) -> Option<u32>
    ensures { result ≡ option_map (F.number numbers.now) k }
{
    match k {
        Some(number) => Some(numbers.number(number)),
        None => None,
    }
}

// A copy of these terms.
fn same_terms(alloc: Global, ts: &[TermId]) -> Result<List<TermId>, AllocError>
    ensures { IfOk result (λ v. v ≡ ts.now) }
{
    let mut list = List::new(alloc);
    for t in ts {
        list.push(*t)?;
    }
    Ok(list)
}

/// A step that cites facts by other numbers.
pub fn renumbered<F: FactNumbers>(
    alloc: Global,
    numbers: &F,
    step: &Step,
) -> Result<Step, AllocError>
    ensures { IfOk result (λ s. s ≡ renumbered (F.number numbers.now) step.now) }
{
    match step {
        Step::Given(k) => Ok(Step::Given(*k)),
        Step::Refl(t) => Ok(Step::Refl(*t)),
        Step::Symm(i) => Ok(Step::Symm(numbers.number(*i))),
        Step::Trans(i, j) => Ok(Step::Trans(numbers.number(*i), numbers.number(*j))),
        Step::Cong(t, u, ks) => {
            let list = all_numbered(alloc, numbers, ks.as_slice())?;
            Ok(Step::Cong(*t, *u, list))
        }
        Step::Linear(relation, first, second) => {
            let left = multiples_numbered(alloc, numbers, first.as_slice())?;
            let right = multiples_numbered(alloc, numbers, second.as_slice())?;
            Ok(Step::Linear(*relation, left, right))
        }
        Step::Schema(kind, ts, field) => {
            let list = same_terms(alloc, ts.as_slice())?;
            Ok(Step::Schema(*kind, list, *field))
        }
        Step::Rule(rule, ts) => {
            let list = same_terms(alloc, ts.as_slice())?;
            Ok(Step::Rule(*rule, list))
        }
        Step::Eval(claim, ks) => {
            let list = all_numbered(alloc, numbers, ks.as_slice())?;
            Ok(Step::Eval(*claim, list))
        }
        Step::Contra(i, j) => Ok(Step::Contra(numbers.number(*i), optional_numbered(numbers, *j))),
    }
}

/// A copy of a step.
pub fn same_step(alloc: Global, step: &Step) -> Result<Step, AllocError>
    ensures { IfOk result (λ s. s ≡ step.now) }
{
    renumbered(alloc, &SameNumbers, step)
}
