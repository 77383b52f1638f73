// Headings of routines.

ghost use Rattle.std.specs.Prelude.{◌≡◌, IfOk};

use crate::formals::Formals;
use spv_logic::list::List;
use spv_logic::names::Symbol;
use spv_logic::{RoutineId, TypeId};
use spv_program::Item;
use spv_program::typed::{Annotation, GlobalItem};
use std::alloc::{AllocError, Global};

/// What those who call a routine know of it, but for its name.
#[derive(Drop)]
pub struct Heading {
    /// The line of the heading.
    pub line: u32,
    /// Whether it is a function.
    pub is_function: bool,
    /// Its number among the routines with a body.
    pub number: RoutineId,
    /// The parameters, in order.
    pub formals: Formals,
    /// The type of a function's result.
    pub result: Option<TypeId>,
    /// The items of its GLOBAL list, in order.
    pub globals: List<GlobalItem>,
}

/// A heading with what else its clauses say.
#[derive(Drop)]
pub struct Specified {
    /// The heading.
    pub heading: Heading,
    /// The INITIAL names, in order, with what they are the values of.
    pub initial: List<(Symbol, Item)>,
    /// ENTRY, where there is one.
    pub entry: Option<Annotation>,
    /// EXIT, where there is one.
    pub exit: Option<Annotation>,
}

// A copy of a list.
pub(crate) fn copied<T: Copy + Drop>(alloc: Global, items: &List<T>) -> Result<List<T>, AllocError>
    ensures { IfOk result (λ l. l ≡ items.now) }
{
    let mut copy = List::new(alloc);
    for item in items.as_slice() {
        copy.push(*item)?;
    }
    Ok(copy)
}

impl Heading {
    /// A copy.
    pub fn copied(&self, alloc: Global) -> Result<Heading, AllocError>
        ensures { IfOk result (λ h. h ≡ self.now) }
    {
        let formals = Formals::from_slice(alloc, self.formals.as_slice())?;
        let globals = copied(alloc, &self.globals)?;
        Ok(Heading {
            line: self.line,
            is_function: self.is_function,
            number: self.number,
            formals,
            result: self.result,
            globals,
        })
    }
}
