// Where a statement stands.

ghost use Rattle.std.specs.Prelude.{◌≡◌, IfOk, IfErr, Ok};
ghost use Rattle.spv_typing.specs.StatementWalk.{unless_counted};
ghost use Rattle.spv_environments.specs.Answers.{Stops};

use spv_environments::Scope;
use spv_logic::names::Symbol;
use spv_typing::TypeFault;
use std::alloc::{AllocError, Global};

/// Where a statement stands: what its expressions see, what its annotations see, and the variables that the FORs around
/// it count with, innermost first.
#[derive(Clone, Copy)]
pub struct Setting<'k, 'o, 'n, 'c> {
    /// What its expressions see.
    pub inside: Scope<'k, 'o>,
    /// What its annotations see.
    pub noted: Scope<'k, 'n>,
    /// The variables that the FORs around it count with.
    pub counted: &'c [Symbol],
}

// What was made, where no variable that counts was changed.
pub(crate) fn kept<T: Drop>(line: u32, changed: Option<Symbol>, made: T) -> Result<T, TypeFault>
    ensures ok { IfOk result (λ x. unless_counted line changed made ≡ Ok x) }
    ensures err { IfErr result (λ e. Stops e (unless_counted line changed made)) }
{
    match changed {
        None => Ok(made),
        Some(v) => Err(TypeFault::ControlChanged(line, v)),
    }
}

// A part of a statement in a box.
pub(crate) fn in_box<T: Drop>(alloc: Global, part: T) -> Result<Box<T>, AllocError>
    ensures { IfOk result (λ b. b.value ≡ part) }
{
    Ok(Box::new(alloc, part)?)
}
