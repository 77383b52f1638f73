// Many terms in a table at once.

ghost use Rattle.std.specs.Prelude.{◌≡◌, ◌<◌, length, IfOk, IfSome};
ghost use Rattle.spv_logic.specs.Terms.{Term};
ghost use Rattle.spv_whole.specs.Fraction.{Fraction};
ghost use Rattle.spv_term.specs.Arena.{AllBelow, Arena, tree};
ghost use Rattle.spv_table.specs.Values as spec;
ghost use Rattle.spv_table.specs.Kept.{PairsIn, listed_over};
ghost use Rattle.spv_table.specs.Evaluating.{AreEvaluated};

use crate::kept::{Kept, all_kept};
use crate::operations::WideValue;
use crate::table::Table;
use spv_atoms::{TermSet, Through, all_in_order};
use spv_frac::Frac;
use spv_term::{TermId, Terms};
use std::alloc::{AllocError, Global};

/// What terms are worth in a table, and those that they are made of.
#[derive(Drop)]
pub struct Evaluated {
    order: TermSet,
    kept: Vec<Kept>,
}

impl Table {
    /// What these terms are worth, and the terms that they are made of: each is evaluated once.
    pub fn evaluated(
        &self,
        alloc: Global,
        terms: &Terms,
        roots: &[TermId],
    ) -> Result<Evaluated, AllocError>
        requires values { PairsIn terms.now self.now.values }
        requires roots { AllBelow (length terms.now.nodes) roots.now }
        ensures { IfOk result (AreEvaluated terms.now (listed_over terms.now self.now.values)) }
    {
        terms.law_arena();
        let order = all_in_order(alloc, terms, Through::Meanings, roots)?;
        let kept = all_kept(alloc, terms, self.values.as_slice(), &order)?;
        Ok(Evaluated { order, kept })
    }
}

// The value that is kept of a term.
fn value_in(kept: &Kept) -> Result<Frac, WideValue>
    ensures { result ≡ kept.now.value }
{
    kept.value
}

impl Evaluated {
    /// The value of a term, or the first operation that is too wide; `None` where it was not evaluated.
    pub fn value(&self, t: TermId) -> Option<Result<Frac, WideValue>>
        ensures { (a : Arena) (listed : Term → Fraction) → AreEvaluated a listed self.now → IfSome result (λ answer. answer ≡ spec.value listed (tree a t)) }
    {
        let Some(place) = self.order.place(t) else {
            return None;
        };
        match self.kept.as_slice().get(place) {
            Some(kept) => Some(value_in(kept)),
            None => None,
        }
    }
}
