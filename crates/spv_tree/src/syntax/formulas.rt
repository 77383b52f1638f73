// Formulas.

ghost use Rattle.std.specs.Prelude.{◌≡◌};
ghost use Rattle.spv_tree.specs.syntax.Lines.{factor_line, formula_line, relation_line, term_line};

use crate::syntax::names::Name;
use crate::syntax::operators::{Adding, Comparison, Multiplying, PlusOrMinus};
use crate::tokens::Numeral;
use std::marker::Model;

/// A formula.
#[cycle(formula)]
#[derive(Drop)]
pub struct Formula {
    /// What it is.
    pub form: FormulaForm,
}

/// What a formula is.
#[cycle(formula)]
#[derive(Drop)]
pub enum FormulaForm {
    /// `factor`, with no sign in front of it and no operator behind it
    Factor(Box<Factor>),
    /// `relation ["->" formula]`
    Implication(Box<Implication>),
}

/// `relation ["->" formula]`
#[cycle(formula)]
#[derive(Drop)]
pub struct Implication {
    /// What stands left of `->`.
    pub left: Relation,
    /// What stands right of it, where it is there.
    pub right: Option<Formula>,
}

impl Model for Formula {
    ghost use Rattle.spv_tree.specs.syntax.Formulas as plain;

    ghost Value = { plain.Formula };

    ghost use Rattle.spv_logic.specs.list.Ways.{coded_by};
    ghost use Rattle.spv_tree.specs.syntax.Model.FormulaCodes.{way_formula};

    ghost coded = { coded_by way_formula };

    ghost use Rattle.spv_tree.specs.syntax.FormulaViews.{formula_of};

    ghost view = { λ a. formula_of a.form };

    ghost use Rattle.spv_tree.specs.syntax.Model.FormulaSizes.{formula_size};

    ghost size = { formula_size };

    ghost use Rattle.spv_tree.specs.syntax.Model.FormulaFalls.{formula_falls};

    ghost size_decreases = { λ a h. formula_falls a };
}

impl Formula {
    /// The line of its first token.
    pub fn line(&self) -> u32
        ensures { result ≡ formula_line self.now }
    {
        match &self.form {
            FormulaForm::Factor(factor) => factor.line(),
            FormulaForm::Implication(whole) => whole.left.line(),
        }
    }
}

/// `simple [("=" | "<>" | "<" | "<=" | ">" | ">=") simple]`
#[cycle(formula)]
#[derive(Drop)]
pub struct Relation {
    /// The left side.
    pub left: Simple,
    /// The operator and the right side, where they are there.
    pub right: Option<Box<(Comparison, Simple)>>,
}

impl Model for Relation {
    ghost use Rattle.spv_tree.specs.syntax.Formulas as plain;

    ghost Value = { plain.Relation };

    ghost use Rattle.spv_logic.specs.list.Ways.{coded_by};
    ghost use Rattle.spv_tree.specs.syntax.Model.FormulaCodes.{way_relation};

    ghost coded = { coded_by way_relation };

    ghost use Rattle.spv_tree.specs.syntax.Lines.{simple_line};
    ghost use Rattle.spv_tree.specs.syntax.FormulaViews.{right_side_of};

    ghost view = { λ a. plain.relation (simple_line a.left) a.left (right_side_of a.right) };

    ghost use Rattle.spv_tree.specs.syntax.Model.FormulaSizes.{relation_size};

    ghost size = { relation_size };

    ghost use Rattle.spv_tree.specs.syntax.Model.FormulaFalls.{relation_falls};

    ghost size_decreases = { λ a h. relation_falls a };
}

impl Relation {
    /// The line of its first token.
    pub fn line(&self) -> u32
        ensures { result ≡ relation_line self.now }
    {
        self.left.line
    }
}

/// `["+" | "-"] term {("+" | "-" | OR) term}`
#[cycle(formula)]
#[derive(Drop)]
pub struct Simple {
    /// The line of its first token.
    pub line: u32,
    /// What stands in front.
    pub prefix: Option<PlusOrMinus>,
    /// The first term.
    pub first: Term,
    /// The other terms, each with the operator in front of it.
    pub more: Vec<(Adding, Term)>,
}

impl Model for Simple {
    ghost use Rattle.spv_tree.specs.syntax.Formulas as plain;

    ghost Value = { plain.Simple };

    ghost use Rattle.spv_logic.specs.list.Ways.{coded_by};
    ghost use Rattle.spv_tree.specs.syntax.Model.FormulaCodes.{way_simple};

    ghost coded = { coded_by way_simple };

    ghost use Rattle.spv_tree.specs.syntax.Model.FormulaSizes.{more_terms_of};

    ghost view = { λ a. plain.simple a.line a.prefix a.first (more_terms_of a.more.items) };

    ghost use Rattle.spv_tree.specs.syntax.Model.FormulaSizes.{simple_size};

    ghost size = { simple_size };

    ghost use Rattle.spv_tree.specs.syntax.Model.FormulaFalls.{simple_falls};

    ghost size_decreases = { λ a h. simple_falls a };
}

/// `factor {("*" | DIV | MOD | AND) factor}`
#[cycle(formula)]
#[derive(Drop)]
pub struct Term {
    /// The first factor.
    pub first: Factor,
    /// The other factors, each with the operator in front of it.
    pub more: Vec<(Multiplying, Factor)>,
}

impl Model for Term {
    ghost use Rattle.spv_tree.specs.syntax.Formulas as plain;

    ghost Value = { plain.Term };

    ghost use Rattle.spv_logic.specs.list.Ways.{coded_by};
    ghost use Rattle.spv_tree.specs.syntax.Model.FormulaCodes.{way_term};

    ghost coded = { coded_by way_term };

    ghost use Rattle.spv_tree.specs.syntax.Lines.{factor_line};
    ghost use Rattle.spv_tree.specs.syntax.Model.FormulaSizes.{more_factors_of};

    ghost view = { λ a. plain.term (factor_line a.first) a.first (more_factors_of a.more.items) };

    ghost use Rattle.spv_tree.specs.syntax.Model.FormulaSizes.{term_size};

    ghost size = { term_size };

    ghost use Rattle.spv_tree.specs.syntax.Model.FormulaFalls.{term_falls};

    ghost size_decreases = { λ a h. term_falls a };
}

impl Term {
    /// The line of its first token.
    pub fn line(&self) -> u32
        ensures { result ≡ term_line self.now }
    {
        self.first.line()
    }
}

/// A number, a truth value, NIL, a class, a place, an application, a formula in brackets or a negation.
#[cycle(formula)]
#[derive(Drop)]
pub struct Factor {
    /// What it is.
    pub form: FactorForm,
}

/// What a factor is. A number in front is the line of its first token; where a name is the first token, it has the line.
#[cycle(formula)]
#[derive(Drop)]
pub enum FactorForm {
    /// `number`
    Number(u32, Numeral),
    /// TRUE or FALSE
    Truth(u32, bool),
    /// NIL
    Nil(u32),
    /// `"#" name`
    Class(u32, Name),
    /// `designator`
    Place(Designator),
    /// `name "(" formula {"," formula} ")" {selector}`
    Application(Name, Box<Application>),
    /// `"(" formula ")"`
    Bracketed(u32, Formula),
    /// `NOT factor`
    Negation(u32, Box<Factor>),
}

/// The arguments of an application, and what stands behind them.
#[cycle(formula)]
#[derive(Drop)]
pub struct Application {
    /// The first argument.
    pub first: Formula,
    /// The other arguments, in order.
    pub more: Vec<Formula>,
    /// The selectors, in order.
    pub behind: Vec<Selector>,
}

impl Model for Factor {
    ghost use Rattle.spv_tree.specs.syntax.Formulas as plain;

    ghost Value = { plain.Factor };

    ghost use Rattle.spv_logic.specs.list.Ways.{coded_by};
    ghost use Rattle.spv_tree.specs.syntax.Model.FormulaCodes.{way_factor};

    ghost coded = { coded_by way_factor };

    ghost use Rattle.spv_tree.specs.syntax.FormulaViews.{factor_of};

    ghost view = { λ a. factor_of a.form };

    ghost use Rattle.spv_tree.specs.syntax.Model.FormulaSizes.{factor_size};

    ghost size = { factor_size };

    ghost use Rattle.spv_tree.specs.syntax.Model.FormulaFalls.{factor_falls};

    ghost size_decreases = { λ a h. factor_falls a };
}

impl Factor {
    /// The line of its first token.
    pub fn line(&self) -> u32
        ensures { result ≡ factor_line self.now }
    {
        match &self.form {
            FactorForm::Number(line, _) => *line,
            FactorForm::Truth(line, _) => *line,
            FactorForm::Nil(line) => *line,
            FactorForm::Class(line, _) => *line,
            FactorForm::Place(place) => place.name.line,
            FactorForm::Application(f, _) => f.line,
            FactorForm::Bracketed(line, _) => *line,
            FactorForm::Negation(line, _) => *line,
        }
    }
}

/// `name {selector}`
#[cycle(formula)]
#[derive(Drop)]
pub struct Designator {
    /// The name.
    pub name: Name,
    /// The selectors, in order.
    pub behind: Vec<Selector>,
}

impl Model for Designator {
    ghost use Rattle.spv_tree.specs.syntax.Formulas as plain;

    ghost Value = { plain.Designator };

    ghost use Rattle.spv_logic.specs.list.Ways.{coded_by};
    ghost use Rattle.spv_tree.specs.syntax.Model.FormulaCodes.{way_designator};

    ghost coded = { coded_by way_designator };

    ghost use Rattle.spv_tree.specs.syntax.Model.FormulaSizes.{selectors_of};

    ghost view = { λ a. plain.designator a.name.line a.name (selectors_of a.behind.items) };

    ghost use Rattle.spv_tree.specs.syntax.Model.FormulaSizes.{designator_size};

    ghost size = { designator_size };

    ghost use Rattle.spv_tree.specs.syntax.Model.FormulaFalls.{designator_falls};

    ghost size_decreases = { λ a h. designator_falls a };
}

/// An index, a field, or the content of a pointer.
#[cycle(formula)]
#[derive(Drop)]
pub struct Selector {
    /// The line of its first token.
    pub line: u32,
    /// What it is.
    pub form: SelectorForm,
}

/// What a selector is.
#[cycle(formula)]
#[derive(Drop)]
pub enum SelectorForm {
    /// `"[" formula {"," formula} "]"`
    Index(Formula, Option<Box<Vec<Formula>>>),
    /// `"." name`
    Field(Name),
    /// `"^"`
    Content,
}

impl Model for Selector {
    ghost use Rattle.spv_tree.specs.syntax.Formulas as plain;

    ghost Value = { plain.Selector };

    ghost use Rattle.spv_logic.specs.list.Ways.{coded_by};
    ghost use Rattle.spv_tree.specs.syntax.Model.FormulaCodes.{way_selector};

    ghost coded = { coded_by way_selector };

    ghost use Rattle.spv_tree.specs.syntax.FormulaViews.{selector_of};

    ghost view = { λ a. selector_of a.line a.form };

    ghost use Rattle.spv_tree.specs.syntax.Model.FormulaSizes.{selector_size};

    ghost size = { selector_size };

    ghost use Rattle.spv_tree.specs.syntax.Model.FormulaFalls.{selector_falls};

    ghost size_decreases = { λ a h. selector_falls a };
}
