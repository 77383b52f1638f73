//! Tables of fractions.

ghost use Rattle.std.specs.Prelude.{◌≡◌, ◌<◌, length, IfOk, IfErr, Ok};
ghost use Rattle.spv_term.specs.Arena.{tree};
ghost use Rattle.spv_table.specs.Values as spec;
ghost use Rattle.spv_table.specs.Kept.{PairsIn, listed_over};
ghost use Rattle.spv_table.specs.Faults.{IsValueFault, IsHoldsFault};

use crate::kept::value_of;
use crate::operations::{WideValue, is_true};
use spv_frac::Frac;
use spv_logic::list::List;
use spv_term::{TermId, Terms};
use std::alloc::{AllocError, Global};
use thiserror::Error;

/// Terms with fractions: variables, and applications of heads without a meaning of their own. A truth
/// value is 0 or 1.
#[derive(Debug, Drop)]
pub struct Table {
    /// The terms, each with its fraction: of two for one term the first counts.
    pub values: List<(TermId, Frac)>,
}

/// Why a term has no value.
#[derive(Clone, Copy, Debug, PartialEq, Eq, Error)]
pub enum ValueFault {
    /// The first operation that is too wide, where arguments come before their term and from left to right.
    #[error("a number is too wide")]
    Wide(WideValue),
    /// There is no memory for the values.
    #[error("out of memory")]
    Memory,
}

impl From<AllocError> for ValueFault {
    ghost use Rattle.std.specs.Prelude.{◌≡◌};
    ghost use Rattle.spv_table.specs.declared.table.ValueFault.TheVariants.{Memory};

    ghost from_gives = { λ _ fault. fault ≡ Memory };

    fn from(_: AllocError) -> ValueFault {
        ValueFault::Memory
    }
}

impl Table {
    /// The value of a term: of a numeral its number, of TRUE and FALSE 1 and 0, of a sum, a difference or
    /// a product of which one side is constant that of its sides, of a relation or a connective 1 or 0; of
    /// every other term the listed one, and 0 where none is listed. The sides of a term come before
    /// the term, the left one first.
    ///
    /// `Wide` is the first operation in this order that is too wide, and comes exactly where there is one.
    pub fn value(&self, alloc: Global, terms: &Terms, t: TermId) -> Result<Frac, ValueFault>
        requires values { PairsIn terms.now self.now.values }
        requires t { t.0 < length terms.now.nodes }
        ensures value { IfOk result
            (λ x. spec.value (listed_over terms.now self.now.values) (tree terms.now t) ≡ Ok x) }
        ensures wide { IfErr result
            (IsValueFault (spec.value (listed_over terms.now self.now.values) (tree terms.now t))) }
    {
        match value_of(alloc, terms, self.values.as_slice(), t)? {
            Ok(x) => Ok(x),
            Err(wide) => Err(ValueFault::Wide(wide)),
        }
    }

    /// Whether a formula holds: whether its value is 1. `Wide` is as for `value`.
    pub fn holds(&self, alloc: Global, terms: &Terms, f: TermId) -> Result<bool, ValueFault>
        requires values { PairsIn terms.now self.now.values }
        requires f { f.0 < length terms.now.nodes }
        ensures value { IfOk result
            (λ b. spec.holds (listed_over terms.now self.now.values) (tree terms.now f) ≡ Ok b) }
        ensures wide { IfErr result
            (IsHoldsFault (spec.holds (listed_over terms.now self.now.values) (tree terms.now f))) }
    {
        match value_of(alloc, terms, self.values.as_slice(), f)? {
            Ok(x) => Ok(is_true(x)),
            Err(wide) => Err(ValueFault::Wide(wide)),
        }
    }
}
