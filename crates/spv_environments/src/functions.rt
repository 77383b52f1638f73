// Names that are known from the start.

ghost use Rattle.std.specs.Prelude.{◌≡◌, option_map};
ghost use Rattle.spv_logic.specs.names.Names.{IsFolded};
ghost use Rattle.spv_program.specs.Lists.{found};
ghost use Rattle.spv_typing.specs.Known.{known_in, number_in, is_fixed, is_reserved};
ghost use Rattle.spv_environments.specs.Views.{function_of, known_names_of};

use spv_logic::names::{Names, Symbol};

/// A function of formulas that is known from the start.
#[derive(Clone, Copy, PartialEq, Eq, Debug)]
pub enum Function {
    /// SELECT: an element.
    Select,
    /// STORE: an array with another element.
    Store,
    /// PUT: a record with another field; its second argument is the field's name.
    Put,
    /// CELL: what a pointer leads to.
    Cell,
    /// SETCELL: cells with other content at one pointer.
    SetCell,
    /// EXTEND: cells with a new one.
    Extend,
    /// POINTERTO: whether a pointer leads to a cell.
    PointerTo,
    /// CAR: the first part of a pair.
    Car,
    /// CDR: the second part.
    Cdr,
    /// CONS: a pair.
    Cons,
    /// ATOM: whether a list is no pair.
    Atom,
}

/// The names that are known from the start, by their numbers in a table of names. A text that is not there has the
/// number of names, which no name has.
#[derive(Clone, Copy, Debug)]
pub struct KnownNames {
    /// INTEGER
    pub integer: Symbol,
    /// BOOLEAN
    pub boolean: Symbol,
    /// LIST
    pub list: Symbol,
    /// SELECT
    pub select: Symbol,
    /// STORE
    pub store: Symbol,
    /// PUT
    pub put: Symbol,
    /// CELL
    pub cell: Symbol,
    /// SETCELL
    pub set_cell: Symbol,
    /// EXTEND
    pub extend: Symbol,
    /// POINTERTO
    pub pointer_to: Symbol,
    /// CAR
    pub car: Symbol,
    /// CDR
    pub cdr: Symbol,
    /// CONS
    pub cons: Symbol,
    /// ATOM
    pub atom: Symbol,
    /// FIELD, which printed terms alone have
    pub field: Symbol,
    /// IMPLIES, which printed terms alone have
    pub implies: Symbol,
}

fn number_of(names: &Names, text: &[u8]) -> Symbol
    requires { IsFolded text.now }
    ensures { result ≡ number_in names.now text.now }
{
    match names.find(text) {
        Some(x) => x,
        None => Symbol(names.len() as u32),
    }
}

impl KnownNames {
    /// Those of a table of names.
    pub fn of(names: &Names) -> KnownNames
        ensures { known_names_of result ≡ known_in names.now }
    {
        KnownNames {
            integer: number_of(names, b"INTEGER"),
            boolean: number_of(names, b"BOOLEAN"),
            list: number_of(names, b"LIST"),
            select: number_of(names, b"SELECT"),
            store: number_of(names, b"STORE"),
            put: number_of(names, b"PUT"),
            cell: number_of(names, b"CELL"),
            set_cell: number_of(names, b"SETCELL"),
            extend: number_of(names, b"EXTEND"),
            pointer_to: number_of(names, b"POINTERTO"),
            car: number_of(names, b"CAR"),
            cdr: number_of(names, b"CDR"),
            cons: number_of(names, b"CONS"),
            atom: number_of(names, b"ATOM"),
            field: number_of(names, b"FIELD"),
            implies: number_of(names, b"IMPLIES"),
        }
    }

    /// Whether a name is that of a type or sort that is known from the start.
    pub fn is_fixed(&self, x: Symbol) -> bool
        ensures { result ≡ is_fixed (known_names_of self.now) x }
    {
        self.integer.0 == x.0 || self.boolean.0 == x.0 || self.list.0 == x.0
    }

    /// Whether a name is a word that printed terms are written with.
    pub fn is_reserved(&self, x: Symbol) -> bool
        ensures { result ≡ is_reserved (known_names_of self.now) x }
    {
        self.select.0 == x.0
            || self.store.0 == x.0
            || self.field.0 == x.0
            || self.put.0 == x.0
            || self.cell.0 == x.0
            || self.set_cell.0 == x.0
            || self.extend.0 == x.0
            || self.pointer_to.0 == x.0
            || self.car.0 == x.0
            || self.cdr.0 == x.0
            || self.cons.0 == x.0
            || self.atom.0 == x.0
            || self.implies.0 == x.0
    }

    /// The function of formulas of a name.
    pub fn function(&self, x: Symbol) -> Option<Function>
        ensures { option_map function_of result ≡ found (known_names_of self.now).functions x }
    {
        if self.select.0 == x.0 {
            return Some(Function::Select);
        }
        if self.store.0 == x.0 {
            return Some(Function::Store);
        }
        if self.put.0 == x.0 {
            return Some(Function::Put);
        }
        if self.cell.0 == x.0 {
            return Some(Function::Cell);
        }
        if self.set_cell.0 == x.0 {
            return Some(Function::SetCell);
        }
        if self.extend.0 == x.0 {
            return Some(Function::Extend);
        }
        if self.pointer_to.0 == x.0 {
            return Some(Function::PointerTo);
        }
        if self.car.0 == x.0 {
            return Some(Function::Car);
        }
        if self.cdr.0 == x.0 {
            return Some(Function::Cdr);
        }
        if self.cons.0 == x.0 {
            return Some(Function::Cons);
        }
        if self.atom.0 == x.0 {
            return Some(Function::Atom);
        }
        None
    }
}
