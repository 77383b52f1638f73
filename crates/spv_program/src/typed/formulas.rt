// Formulas of annotations, with each name resolved.

use crate::{Arithmetic, BuiltIn, Comparison, Connective};
use spv_logic::TypeId;
use spv_logic::names::Symbol;
use std::marker::Model;

/// A formula.
#[cycle(formulas)]
#[derive(Drop)]
pub struct Formula {
    /// What it is.
    pub form: FormulaForm,
}

/// What a formula is.
#[cycle(formulas)]
#[derive(Drop)]
pub enum FormulaForm {
    /// A numeral with its sign, or a constant.
    Numeral(i64),
    /// TRUE or FALSE.
    Boolean(bool),
    /// NIL, as a pointer to cells of this type.
    Nil(TypeId),
    /// A name and its line: a variable, an INITIAL name, or in its own routine a function.
    Named(u32, Symbol),
    /// `#T` and its line.
    Class(u32, TypeId),
    /// `a[i]`
    Element(Box<Formula>, Box<Formula>),
    /// `r.f`
    Field(Box<Formula>, Symbol),
    /// `p^`: the line of `^`, and the type of the cells.
    Content(u32, TypeId, Box<Formula>),
    /// A declared symbol and its arguments.
    Applied(Symbol, Vec<Formula>),
    /// A function that is known from the start, and its arguments.
    Known(BuiltIn, Vec<Formula>),
    /// A sign `-` that does not belong to a numeral.
    Negative(Box<Formula>),
    /// Two numbers calculated to one.
    Calculated(Arithmetic, Box<Formula>, Box<Formula>),
    /// Two values compared.
    Compared(Comparison, Box<Formula>, Box<Formula>),
    /// NOT.
    Negated(Box<Formula>),
    /// Two truth values joined.
    Joined(Connective, Box<Formula>, Box<Formula>),
    /// `a -> b`
    Implied(Box<Formula>, Box<Formula>),
}

impl Model for Formula {
    ghost use Rattle.spv_program.specs.Formulas as plain;

    ghost Value = { plain.Formula };

    ghost use Rattle.spv_logic.specs.list.Ways.{coded_by};
    ghost use Rattle.spv_program.specs.typed.Model.FormulaCodes.{way_formula};

    ghost coded = { coded_by way_formula };

    ghost use Rattle.spv_program.specs.typed.FormulaViews.{formula_of};

    ghost view = { λ f. formula_of f.form };

    ghost use Rattle.spv_program.specs.typed.Model.FormulaSizes.{formula_size};

    ghost size = { formula_size };

    ghost use Rattle.spv_program.specs.typed.Model.FormulaFalls.{formula_falls};

    ghost size_decreases = { λ f h. formula_falls f };
}

/// An annotation.
#[derive(Drop)]
pub struct Annotation {
    /// Its formula.
    pub formula: Formula,
    /// The line of the formula's first token.
    pub line: u32,
}
