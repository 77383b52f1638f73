// What a name with arguments calls.

ghost use Rattle.std.specs.Prelude.{◌≡◌, IfOk, IfErr, List, ℕ};
ghost use Rattle.spv_program.specs.Formulas.{Formula as FormulaText};
ghost use Rattle.spv_typing.specs.Outcomes.{after};
ghost use Rattle.spv_typing.specs.OperatorWalk.{Argument};
ghost use Rattle.spv_typing.specs.FormulaWalk as spec;
ghost use Rattle.spv_environments.specs.Answers.{Stops};
ghost use Rattle.spv_environments.specs.Scopes.{scope_of};
ghost use Rattle.spv_formula_typing.specs.Arguments.{given_as};
ghost use Rattle.spv_annotation_typing.specs.Applied.{way_in, applied_to, function_callee, meaning_callee};

use spv_environments::{Function, Meaning, Scope, Signature};
use spv_formula_typing::Way;
use spv_logic::names::Symbol;
use spv_tree::syntax::Name;
use spv_typing::TypeFault;

/// What a name with arguments calls.
#[derive(Clone, Copy)]
pub enum Callee<'a> {
    /// PUT, which has the name of a field in the middle.
    Put,
    /// Another function that is known from the start.
    Known(Function),
    /// A declared symbol, with its sorts.
    Declared(Symbol, &'a Signature),
    /// A routine with so many parameters, which has no place here.
    Routine(usize),
    /// Something else, which has no place here.
    Other,
}

impl Callee<'_> {
    /// How the argument at a place, from 0, is read.
    pub(crate) fn way(&self, place: usize) -> Way
        ensures { result ≡ way_in self.now place }
    {
        match self {
            Callee::Put => { if place == 1 { Way::Field } else { Way::Value } }
            Callee::Known(_) => Way::Value,
            Callee::Declared(_, _) => Way::Value,
            Callee::Routine(_) => Way::Value,
            Callee::Other => Way::Value,
        }
    }
}

fn called_function<'a>(b: Function) -> Callee<'a>
    ensures { result ≡ function_callee b }
{
    match b {
        Function::Put => Callee::Put,
        other => Callee::Known(other),
    }
}

fn called_meaning<'a>(x: Name, found: Option<Meaning<'a>>) -> Result<Callee<'a>, TypeFault>
    ensures { result ≡ meaning_callee x found.entry }
{
    match found {
        Some(Meaning::Declared(name, signature)) => Ok(Callee::Declared(name, signature)),
        Some(Meaning::Routine(_, heading)) => Ok(Callee::Routine(heading.formals.len())),
        Some(_) => Ok(Callee::Other),
        None => Err(TypeFault::Undeclared(x.line, x.symbol)),
    }
}

/// What a name with arguments calls; a name that nothing has is a fault before the arguments are looked at.
pub(crate) fn called<'k>(scope: &Scope<'k, '_>, line: u32, x: Name) -> Result<Callee<'k>, TypeFault>
    ensures ok { IfOk result (λ c. (given : List (Argument FormulaText spec.Sorted)) →
        spec.applied (scope_of scope.now) line x given ≡ after (given_as (way_in c) 0 given) (applied_to (scope_of scope.now) line c)) }
    ensures err { IfErr result (λ e. (given : List (Argument FormulaText spec.Sorted)) → Stops e (spec.applied (scope_of scope.now) line x given)) }
{
    match scope.function(x.symbol) {
        Some(b) => Ok(called_function(b)),
        None => called_meaning(x, scope.meaning(x.symbol)),
    }
}
