// Names with arguments.

ghost use Rattle.std.specs.Prelude.{◌≡◌, IfOk, IfErr, Ok};
ghost use Rattle.spv_environments.specs.Answers.{Stops};
ghost use Rattle.spv_environments.specs.Scopes.{scope_of};
ghost use Rattle.spv_formula_typing.specs.Arguments.{all_given};
ghost use Rattle.spv_expression_typing.specs.Applied.{applied_to};

use crate::callee::Callee;
use crate::fitting::call_with;
use crate::naming::{function_result, no_call_fault};
use crate::reached::Reached;
use spv_environments::Scope;
use spv_formula_typing::Given;
use spv_program::typed::Expression;
use spv_tree::syntax::Name;
use spv_typing::TypeFault;
use std::alloc::Global;

/// What is called, with its arguments as they were read.
#[tactic(auto, using(crate::proofs::Formals::given_count))]
pub(crate) fn applied(
    scope: &Scope<'_, '_>,
    alloc: Global,
    line: u32,
    x: Name,
    callee: Callee<'_>,
    given: Vec<(u32, Given<Expression, Reached>)>,
) -> Result<Reached, TypeFault>
    ensures ok { IfOk result (λ r. applied_to (scope_of scope.now) line x callee.entry (all_given given.items) ≡ Ok r) }
    ensures err { IfErr result (λ e. Stops e (applied_to (scope_of scope.now) line x callee.entry (all_given given.items))) }
{
    match callee {
        Callee::Routine(name, heading) => {
            let call = call_with(scope.known, alloc, line, x.line, name, heading, given)?;
            function_result(alloc, line, name, heading, call)
        }
        Callee::Other(count) => Err(no_call_fault(line, count, given.len())),
    }
}
