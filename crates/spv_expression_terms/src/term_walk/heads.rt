// Heads, and how they are written.

ghost use Rattle.std.specs.Prelude.{◌≡◌, OnOk, IsTrue};
ghost use Rattle.spv_logic.specs.Sorts.{numeral_fits};
ghost use Rattle.spv_logic.specs.declared.operators.Head.TheVariants as head;
ghost use Rattle.spv_program.specs.Lists.{found};
ghost use Rattle.spv_program.specs.Scopes.{sort_or_int};
ghost use Rattle.spv_program.specs.FormulaTypes.{head_of_known};
ghost use Rattle.spv_program.specs.Terms.{alone, name_in, numeral, truth, head_of_arithmetic, head_of_connective};
ghost use Rattle.spv_expression_terms.specs.term_walk.Names.{head_in};
ghost use Rattle.spv_expression_terms.specs.term_walk.Written.{Writes, WritesHead};

use crate::postfix::{Piece, put};
use crate::sort_table::SortTable;
use spv_logic::names::Symbol;
use spv_logic::{Head, Sort};
use spv_program::ordered_map::Named;
use spv_program::{Arithmetic, BuiltIn, Connective};
use std::alloc::AllocError;

// Writes a head over so many of the terms before it.
pub(crate) fn write(pieces: &mut Vec<Piece>, head: Head, count: usize) -> Result<(), AllocError>
    ensures { OnOk result (WritesHead head count pieces.old.items pieces.new.items) }
{
    put(pieces, head, count)?;
    Ok(())
}

// Writes a numeral.
pub(crate) fn write_numeral(pieces: &mut Vec<Piece>, z: &i64) -> Result<(), AllocError>
    ensures writes { OnOk result (Writes (numeral z.now) pieces.old.items pieces.new.items) }
    ensures fits { IsTrue (numeral_fits (head.Num z.now)) }
{
    write(pieces, Head::Num(*z as i128), 0)
}

// The head of a truth value.
pub(crate) fn truth_head(b: bool) -> Head
    ensures { alone result ≡ truth b }
{
    if b { Head::True } else { Head::False }
}

// The sort of a name, of one that is not there that of a number.
fn sort_of_name(names: &SortTable<'_>, x: Symbol) -> Sort
    ensures { result ≡ sort_or_int (found names.now x) }
{
    match names.get(x) {
        Some(sort) => sort,
        None => Sort::Int,
    }
}

// The head of a variable's name.
pub(crate) fn variable_head(names: &SortTable<'_>, x: Symbol) -> Head
    ensures { result ≡ name_in names.now x }
{
    Head::Var(x, sort_of_name(names, x), 0)
}

// The head of a name; those among `starts` stand for what they were at the entry.
pub(crate) fn name_head(names: &SortTable<'_>, starts: &Named<()>, x: Symbol) -> Head
    ensures { result ≡ head_in names.now starts.now x }
{
    if starts.has(x) {
        Head::Start(x, sort_of_name(names, x))
    } else {
        variable_head(names, x)
    }
}

// The head of an operator on numbers.
pub(crate) fn arithmetic_head(operator: Arithmetic) -> Head
    ensures { result ≡ head_of_arithmetic operator }
{
    match operator {
        Arithmetic::Plus => Head::Add,
        Arithmetic::Minus => Head::Sub,
        Arithmetic::Times => Head::Mul,
        Arithmetic::Div => Head::Div,
        Arithmetic::Mod => Head::Mod,
    }
}

// The head of an operator on truth values.
pub(crate) fn connective_head(operator: Connective) -> Head
    ensures { result ≡ head_of_connective operator }
{
    match operator {
        Connective::And => Head::And,
        Connective::Or => Head::Or,
    }
}

// The head of a function that is known from the start.
pub(crate) fn known_head(function: BuiltIn) -> Head
    ensures { result ≡ head_of_known function }
{
    match function {
        BuiltIn::Select => Head::Select,
        BuiltIn::Store => Head::Store,
        BuiltIn::Put(field) => Head::Put(field),
        BuiltIn::Cell => Head::Cell,
        BuiltIn::SetCell => Head::SetCell,
        BuiltIn::Extend => Head::Extend,
        BuiltIn::PointerTo => Head::PointerTo,
        BuiltIn::Car => Head::Car,
        BuiltIn::Cdr => Head::Cdr,
        BuiltIn::Cons => Head::Cons,
        BuiltIn::Atom => Head::Atom,
    }
}
