// A formula and its sort.

ghost use Rattle.std.specs.Prelude.{◌≡◌, IfOk};
ghost use Rattle.spv_program.specs.typed.FormulaViews.{formula_of};
ghost use Rattle.spv_typing.specs.FormulaWalk as spec;

use spv_logic::Sort;
use spv_program::typed::{Formula, FormulaForm};
use std::alloc::{AllocError, Global};
use std::marker::Model;

/// A formula and its sort.
#[derive(Drop)]
pub struct Sorted {
    formula: Formula,
    sort: Sort,
}

impl Model for Sorted {
    ghost use Rattle.std.specs.Coded.{codes};
    ghost use Rattle.spv_logic.specs.list.Ways.{coded_by};
    ghost use Rattle.spv_program.specs.typed.Model.FormulaCodes.{way_formula};
    ghost use Rattle.spv_typing.specs.FormulaWalk as spec;

    ghost Value = { spec.Sorted };

    ghost coded = { Prim.hlevel (codes, coded_by way_formula) };

    ghost view = { λ s. spec.with_sort s.formula s.sort };
}

pub(crate) fn boxed(alloc: Global, formula: Formula) -> Result<Box<Formula>, AllocError>
    ensures { IfOk result (λ b. b.value ≡ formula) }
{
    Ok(Box::new(alloc, formula)?)
}

impl Sorted {
    /// A formula of this form, with its sort.
    pub(crate) fn new(form: FormulaForm, sort: Sort) -> Sorted
        ensures { result ≡ spec.with_sort (formula_of form) sort }
    {
        Sorted {
            formula: Formula { form },
            sort,
        }
    }

    /// A formula with its sort.
    pub(crate) fn of(formula: Formula, sort: Sort) -> Sorted
        ensures { result ≡ spec.with_sort formula sort }
    {
        Sorted { formula, sort }
    }

    /// Its sort.
    pub fn sort(&self) -> Sort
        ensures { result ≡ self.now.sort }
    {
        self.sort
    }

    /// The formula.
    pub fn into_formula(self) -> Formula
        ensures { result ≡ self.formula }
    {
        self.formula
    }
}
