// What a name with arguments calls.

ghost use Rattle.std.specs.Prelude.{◌≡◌, IfOk, IfErr, List, ℕ, Some};
ghost use Rattle.std.specs.List.{slice_get};
ghost use Rattle.spv_program.specs.Expressions.{Expression as ExpressionText};
ghost use Rattle.spv_typing.specs.Outcomes.{after};
ghost use Rattle.spv_typing.specs.OperatorWalk.{Argument};
ghost use Rattle.spv_typing.specs.Known.{function};
ghost use Rattle.spv_typing.specs.FormulaWalk.{arity};
ghost use Rattle.spv_typing.specs.ExpressionWalk as spec;
ghost use Rattle.spv_environments.specs.Answers.{Stops};
ghost use Rattle.spv_environments.specs.Scopes.{scope_of};
ghost use Rattle.spv_environments.specs.Views.{function_of};
ghost use Rattle.spv_formula_typing.specs.Arguments.{given_as};
ghost use Rattle.spv_expression_typing.specs.Applied.{way_in, formal_way, applied_to, meaning_callee};

use spv_environments::{Function, Heading, Meaning, Scope};
use spv_formula_typing::Way;
use spv_logic::names::Symbol;
use spv_program::typed::Formal;
use spv_tree::syntax::Name;
use spv_typing::TypeFault;

/// What a name with arguments calls.
#[derive(Clone, Copy)]
pub enum Callee<'a> {
    /// A routine.
    Routine(Symbol, &'a Heading),
    /// Something else, which has no place here, and how many arguments it takes, where it takes any.
    Other(Option<usize>),
}

// How the argument for a parameter is read.
fn formal_way(formals: &[Formal], place: usize) -> Way
    ensures { result ≡ formal_way (slice_get formals.now place) }
{
    match formals.get(place) {
        None => Way::Value,
        Some(formal) => {
            if formal.by_place {
                Way::Place
            } else {
                Way::Value
            }
        }
    }
}

impl Callee<'_> {
    /// How the argument at a place, from 0, is read.
    pub(crate) fn way(&self, place: usize) -> Way
        ensures { result ≡ way_in self.now place }
    {
        match self {
            Callee::Routine(_, heading) => formal_way(heading.formals.as_slice(), place),
            Callee::Other(_) => Way::Value,
        }
    }
}

/// How many arguments a function takes.
pub fn arity(b: Function) -> usize
    ensures { result ≡ arity (function_of b) }
{
    match b {
        Function::Select => 2,
        Function::Store => 3,
        Function::Put => 3,
        Function::Cell => 2,
        Function::SetCell => 3,
        Function::Extend => 3,
        Function::PointerTo => 2,
        Function::Car => 1,
        Function::Cdr => 1,
        Function::Cons => 2,
        Function::Atom => 1,
    }
}

fn called_meaning<'a>(x: Name, found: Option<Meaning<'a>>) -> Result<Callee<'a>, TypeFault>
    ensures { result ≡ meaning_callee x found.entry }
{
    match found {
        Some(Meaning::Routine(name, heading)) => Ok(Callee::Routine(name, heading)),
        Some(Meaning::Declared(_, signature)) => Ok(Callee::Other(Some(signature.args.len()))),
        Some(_) => Ok(Callee::Other(None)),
        None => Err(TypeFault::Undeclared(x.line, x.symbol)),
    }
}

/// What a name with arguments calls; a name that nothing has is a fault before the arguments are looked at.
pub(crate) fn called<'k>(scope: &Scope<'k, '_>, line: u32, x: Name) -> Result<Callee<'k>, TypeFault>
    ensures ok { IfOk result (λ c. (given : List (Argument ExpressionText spec.Reached)) →
        spec.applied_of (scope_of scope.now) line x (function (scope_of scope.now) x.symbol) given ≡ after (given_as (way_in c) 0 given) (applied_to (scope_of scope.now) line x c)) }
    ensures err { IfErr result (λ e. (given : List (Argument ExpressionText spec.Reached)) →
        Stops e (spec.applied_of (scope_of scope.now) line x (function (scope_of scope.now) x.symbol) given)) }
{
    match scope.function(x.symbol) {
        Some(b) => Ok(Callee::Other(Some(arity(b)))),
        None => called_meaning(x, scope.meaning(x.symbol)),
    }
}
