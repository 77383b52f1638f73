// Routines and programs, with each name resolved.

use crate::typed::formulas::Annotation;
use crate::typed::statements::Statement;
use crate::{Item, TypeForm};
use spv_logic::list::List;
use spv_logic::names::Symbol;
use spv_logic::{Decl, TypeId};
use std::marker::Model;

/// A parameter.
#[derive(Clone, Copy, Debug)]
pub struct Formal {
    /// Its name.
    pub name: Symbol,
    /// Its type.
    pub of: TypeId,
    /// Whether VAR stands before its group.
    pub by_place: bool,
    /// The line where its group begins.
    pub line: u32,
}

/// An item of a GLOBAL list.
#[derive(Clone, Copy, Debug)]
pub struct GlobalItem {
    /// A variable or a class of the program.
    pub item: Item,
    /// Whether VAR stands before its group.
    pub is_var: bool,
    /// The line where its group begins.
    pub line: u32,
}

/// A procedure, or with a result a function.
#[derive(Drop)]
pub struct Routine {
    /// Its name.
    pub name: Symbol,
    /// The line of its heading.
    pub line: u32,
    /// The parameters, in order.
    pub formals: List<Formal>,
    /// The type of a function's result.
    pub result: Option<TypeId>,
    /// The items of its GLOBAL list, in order.
    pub globals: List<GlobalItem>,
    /// The INITIAL names, in order, with what they are the values of.
    pub initial: List<(Symbol, Item)>,
    /// ENTRY, where there is one.
    pub entry: Option<Annotation>,
    /// EXIT, where there is one.
    pub exit: Option<Annotation>,
    /// The local variables, in order, with their types.
    pub locals: List<(Symbol, TypeId)>,
    /// The body.
    pub body: Statement,
}

/// The main block.
#[derive(Drop)]
pub struct Main {
    /// ENTRY, where there is one.
    pub entry: Option<Annotation>,
    /// EXIT, where there is one.
    pub exit: Option<Annotation>,
    /// The block.
    pub body: Statement,
}

/// A program, with each name resolved.
#[derive(Drop)]
pub struct Program {
    /// How each type is built, by its number.
    pub forms: List<TypeForm>,
    /// The first name of each type that has one, by its number.
    pub titles: List<Option<Symbol>>,
    /// The names of the TYPE part, in order, with their types.
    pub types: List<(Symbol, TypeId)>,
    /// The constants, in order, with their numbers.
    pub constants: List<(Symbol, i64)>,
    /// The variables, in order, with their types.
    pub variables: List<(Symbol, TypeId)>,
    /// The declared symbols, in order.
    pub symbols: List<Decl>,
    /// The routines, in the order of their bodies.
    pub routines: List<Routine>,
    /// The main block.
    pub main: Main,
}

impl Model for Program {
    ghost use Rattle.std.specs.Prelude.{map};
    ghost use Rattle.spv_program.specs.Programs as plain;
    ghost use Rattle.spv_program.specs.typed.ProgramViews.{routine_of, main_of};

    ghost Value = { plain.Program };

    ghost use Rattle.std.specs.Coded.{codes};
    ghost use Rattle.spv_logic.specs.list.Ways.{coded_by};
    ghost use Rattle.spv_program.specs.typed.Model.FormulaCodes.{way_formula};
    ghost use Rattle.spv_program.specs.typed.Model.StatementCodes.{way_statement};

    ghost coded = { Prim.hlevel (codes, coded_by way_formula, coded_by way_statement) };

    ghost view = { λ p. record {
      forms = p.forms;
      titles = p.titles;
      types = p.types;
      constants = p.constants;
      variables = p.variables;
      symbols = p.symbols;
      routines = map routine_of p.routines;
      main = main_of p.main;
    } };
}
