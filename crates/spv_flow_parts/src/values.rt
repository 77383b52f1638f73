// The terms of expressions and variables.

ghost use Rattle.std.specs.Prelude.{◌≡◌, IfOk, Some};
ghost use Rattle.spv_term.specs.Arena.{sort_at};
ghost use Rattle.spv_program.specs.ExpressionTypes.{designator_type, expression_sort, sort_of_type};
ghost use Rattle.spv_program.specs.Programs.{routine_in};
ghost use Rattle.spv_flow_parts.specs.Standing.{IsValue, IsVariable, Stands, value_of, variable_of};
ghost use Rattle.spv_flow_parts.specs.Walks.{MakesTerm};

use crate::IndexedProgram;
use crate::bodies::Body;
use spv_assign::creation_trace::GenFault;
use spv_assign::limited_steps::limited;
use spv_expression_terms::term_walk::{expression_term, place_term};
use spv_program::typed::{Designator, Expression};
use spv_term::{TermId, Terms};

/// The term of an expression that calls nothing.
pub fn value(
    program: &IndexedProgram<'_>,
    body: &Body<'_>,
    terms: &mut Terms,
    e: &Expression,
) -> Result<TermId, GenFault>
    requires stands { Stands program.now body.now terms.old }
    requires value { IsValue program.now body.now.here e.now }
    ensures made { MakesTerm result (value_of program.now body.now.here e.now) terms.old terms.new }
    ensures sort { IfOk result (λ t. expression_sort program.now (routine_in program.now body.now.here) e.now ≡ Some (sort_at terms.new t)) }
{
    let _ = program;
    let made = expression_term(terms, body.alloc, &body.variables, e);
    limited(terms, made)
}

/// The term of a variable.
pub fn variable(
    program: &IndexedProgram<'_>,
    body: &Body<'_>,
    terms: &mut Terms,
    d: &Designator,
) -> Result<TermId, GenFault>
    requires stands { Stands program.now body.now terms.old }
    requires variable { IsVariable program.now body.now.here d.now }
    ensures made { MakesTerm result (variable_of program.now body.now.here d.now) terms.old terms.new }
    ensures sort { IfOk result (λ t. sort_of_type program.now (designator_type program.now (routine_in program.now body.now.here) d.now) ≡ Some (sort_at terms.new t)) }
{
    let _ = program;
    let made = place_term(terms, body.alloc, &body.variables, d);
    limited(terms, made)
}
