// The terms of expressions and places with calls, and arguments. What makes calls puts them behind those that are there.

ghost use Rattle.std.specs.Prelude.{◌≡◌, [], ◌∷◌, IfOk, Some};
ghost use Rattle.spv_term.specs.Arena.{sort_at};
ghost use Rattle.spv_program.specs.Programs.{routine_at, routine_in};
ghost use Rattle.spv_program.specs.Programs as programs;
ghost use Rattle.spv_program.specs.Expressions.{no_arguments, no_selectors};
ghost use Rattle.spv_program.specs.ExpressionTypes.{expression_sort};
ghost use Rattle.spv_program.specs.ExpressionTerms.{argued, placed, selected, valued};
ghost use Rattle.spv_program.specs.typed.ExpressionViews.{argument_before, arguments_of, selector_before, selectors_of};
ghost use Rattle.spv_expression_terms.specs.term_walk.OuterCalls.{made_calls, outer_calls, selectors_outer_calls};
ghost use Rattle.spv_assign.specs.supply.Numbers.{AreThere, supply_of};
ghost use Rattle.spv_assign.specs.structures.Targets.{target_in};
ghost use Rattle.spv_flow_parts.specs.leaves.Values.{MakesValue};
ghost use Rattle.spv_flow_parts.specs.calls.Arguments.{AddsArgument, AddsArguments, AddsCalls, AddsPlace, AddsStep, AddsValue, AreSelectors, AreSteps, FitParameters, IsCallOf, IsExpression, IsFunctionAt, IsFunctionCall, IsPlace, IsWay, MakesArguments, MakesPlace, MayMake, argued_at, arguments_at, arguments_in, call_made, called_routine, placed_at};
ghost use Rattle.spv_flow_parts.specs.calls.Events.{argument_events, call_events, calls_in_value, made_at_call, made_events, place_events, step_events, value_events};

use crate::calls::at_call::function_call;
use crate::calls::passed::{Argued, Argument, Placed};
use crate::calls::places::{Way, start, to_cell, to_element, to_field};
use crate::leaves::{Called, Valued};
use crate::{Body, IndexedProgram};
use spv_assign::creation_trace::GenFault;
use spv_assign::limited_steps::limited;
use spv_assign::structures::Target;
use spv_assign::supply::Supply;
use spv_expression_terms::term_walk::filled_term;
use spv_logic::Head;
use spv_logic::list::List;
use spv_program::typed::{
    Argument as ArgumentText, Call, Designator, Expression, ExpressionForm, Selector,
};
use spv_term::{TermId, Terms};
use std::alloc::Global;

/// The term of an expression, with the calls that are made in it.
pub fn value(
    program: &IndexedProgram<'_>,
    body: &Body<'_>,
    terms: &mut Terms,
    supply: &mut Supply,
    e: &Expression,
) -> Result<Valued, GenFault>
    requires may { MayMake program.now body.now terms.old (supply_of supply.old) }
    requires typed { IsExpression program.now body.now.here e.now }
    ensures made { MakesValue result (valued program.now (routine_in program.now body.now.here) (supply_of supply.old) e.now)
        (value_events program.now (routine_in program.now body.now.here) (supply_of supply.old) e.now) terms.old terms.new (supply_of supply.new) }
    ensures sort { IfOk result (λ v. expression_sort program.now (routine_in program.now body.now.here) e.now ≡ Some (sort_at terms.new v.term)) }
{
    let mut calls = List::new(body.alloc);
    let term = add_value(program, body, terms, supply, &mut calls, e)?;
    Ok(Valued { term, calls })
}

/// The place of a designator, with the calls that are made in its selectors. What stands there is made on the way.
pub fn place(
    program: &IndexedProgram<'_>,
    body: &Body<'_>,
    terms: &mut Terms,
    supply: &mut Supply,
    d: &Designator,
) -> Result<Placed, GenFault>
    requires may { MayMake program.now body.now terms.old (supply_of supply.old) }
    requires typed { IsPlace program.now body.now.here d.now }
    ensures { MakesPlace result (placed program.now (routine_in program.now body.now.here) (supply_of supply.old) d.now)
        (place_events program.now (routine_in program.now body.now.here) (supply_of supply.old) d.now) terms.old terms.new (supply_of supply.new) }
{
    let mut calls = List::new(body.alloc);
    let target = add_place(program, body, terms, supply, &mut calls, d)?;
    Ok(Placed { target, calls })
}

/// The arguments of a call, from left to right, with the calls that are made in them.
pub fn arguments(
    program: &IndexedProgram<'_>,
    body: &Body<'_>,
    terms: &mut Terms,
    supply: &mut Supply,
    call: &Call,
) -> Result<Argued, GenFault>
    ghost routine: { programs.Routine }
    requires may { MayMake program.now body.now terms.old (supply_of supply.old) }
    requires typed { IsCallOf program.now body.now.here call.now routine }
    ensures { MakesArguments result (argued program.now (routine_in program.now body.now.here) (supply_of supply.old) (arguments_in call.now))
        (argument_events program.now (routine_in program.now body.now.here) (supply_of supply.old) (arguments_in call.now)) terms.old terms.new (supply_of supply.new) }
{
    let mut calls = List::new(body.alloc);
    let arguments = add_arguments(
        program,
        body,
        terms,
        supply,
        &mut calls,
        call.arguments.as_slice(),
    )?;
    Ok(Argued { arguments, calls })
}

// The term of an expression.
#[cycle(values)]
fn add_value(
    program: &IndexedProgram<'_>,
    body: &Body<'_>,
    terms: &mut Terms,
    supply: &mut Supply,
    calls: &mut List<Called>,
    e: &Expression,
) -> Result<TermId, GenFault>
    requires may { MayMake program.now body.now terms.old (supply_of supply.old) }
    requires typed { IsExpression program.now body.now.here e.now }
    ensures made { AddsValue result (valued program.now (routine_in program.now body.now.here) (supply_of supply.old) e.now)
        (value_events program.now (routine_in program.now body.now.here) (supply_of supply.old) e.now) terms.old terms.new calls.old calls.new (supply_of supply.new) }
    ensures sort { IfOk result (λ t. expression_sort program.now (routine_in program.now body.now.here) e.now ≡ Some (sort_at terms.new t)) }
{
    let mut variables = List::new(body.alloc);
    add_calls(program, body, terms, supply, calls, &mut variables, e)?;
    let term = filled_term(terms, body.alloc, &body.variables, variables.as_slice(), e);
    limited(terms, term)
}

// The outermost calls of an expression, in order.
#[cycle(values)]
fn add_calls(
    program: &IndexedProgram<'_>,
    body: &Body<'_>,
    terms: &mut Terms,
    supply: &mut Supply,
    calls: &mut List<Called>,
    variables: &mut List<Head>,
    e: &Expression,
) -> Result<(), GenFault>
    requires may { MayMake program.now body.now terms.old (supply_of supply.old) }
    requires typed { IsExpression program.now body.now.here e.now }
    ensures { AddsCalls result (made_calls program.now (routine_in program.now body.now.here) (supply_of supply.old) (outer_calls e.now))
        (calls_in_value program.now (routine_in program.now body.now.here) (supply_of supply.old) e.now) terms.old terms.new
        variables.old variables.new calls.old calls.new (supply_of supply.new) }
{
    match &e.form {
        ExpressionForm::Numeral(_) => Ok(()),
        ExpressionForm::Boolean(_) => Ok(()),
        ExpressionForm::Nil(_) => Ok(()),
        ExpressionForm::Read(d) => {
            add_selector_calls(
                program,
                body,
                terms,
                supply,
                calls,
                variables,
                d.selectors.as_slice(),
            )
        }
        ExpressionForm::Result(c) => add_call(program, body, terms, supply, calls, variables, c),
        ExpressionForm::Through(t) => {
            add_call(program, body, terms, supply, calls, variables, &t.call)?;
            add_selector_calls(
                program,
                body,
                terms,
                supply,
                calls,
                variables,
                t.selectors.as_slice(),
            )
        }
        ExpressionForm::Negative(a) => add_calls(program, body, terms, supply, calls, variables, a),
        ExpressionForm::Calculated(_, a, b) => {
            add_calls(program, body, terms, supply, calls, variables, a)?;
            add_calls(program, body, terms, supply, calls, variables, b)
        }
        ExpressionForm::Compared(_, a, b) => {
            add_calls(program, body, terms, supply, calls, variables, a)?;
            add_calls(program, body, terms, supply, calls, variables, b)
        }
        ExpressionForm::Negated(a) => add_calls(program, body, terms, supply, calls, variables, a),
        ExpressionForm::Joined(_, a, b) => {
            add_calls(program, body, terms, supply, calls, variables, a)?;
            add_calls(program, body, terms, supply, calls, variables, b)
        }
    }
}

// The outermost calls of selectors, in order.
#[cycle(values)]
fn add_selector_calls(
    program: &IndexedProgram<'_>,
    body: &Body<'_>,
    terms: &mut Terms,
    supply: &mut Supply,
    calls: &mut List<Called>,
    variables: &mut List<Head>,
    selectors: &[Selector],
) -> Result<(), GenFault>
    requires may { MayMake program.now body.now terms.old (supply_of supply.old) }
    requires typed { AreSelectors program.now body.now.here (selectors_of selectors.now) }
    ensures { AddsCalls result (made_calls program.now (routine_in program.now body.now.here) (supply_of supply.old) (selectors_outer_calls (selectors_of selectors.now)))
        (made_events program.now (routine_in program.now body.now.here) (supply_of supply.old) (selectors_outer_calls (selectors_of selectors.now))) terms.old terms.new
        variables.old variables.new calls.old calls.new (supply_of supply.new) }
{
    for selector in selectors {
        add_index_calls(program, body, terms, supply, calls, variables, selector)?;
    }
    Ok(())
}

// The outermost calls of a selector.
#[cycle(values)]
fn add_index_calls(
    program: &IndexedProgram<'_>,
    body: &Body<'_>,
    terms: &mut Terms,
    supply: &mut Supply,
    calls: &mut List<Called>,
    variables: &mut List<Head>,
    selector: &Selector,
) -> Result<(), GenFault>
    requires may { MayMake program.now body.now terms.old (supply_of supply.old) }
    requires typed { AreSelectors program.now body.now.here (selector_before selector.now no_selectors) }
    ensures { AddsCalls result (made_calls program.now (routine_in program.now body.now.here) (supply_of supply.old) (selectors_outer_calls (selector_before selector.now no_selectors)))
        (made_events program.now (routine_in program.now body.now.here) (supply_of supply.old) (selectors_outer_calls (selector_before selector.now no_selectors))) terms.old terms.new
        variables.old variables.new calls.old calls.new (supply_of supply.new) }
{
    match selector {
        Selector::Index(_, e) => add_calls(program, body, terms, supply, calls, variables, e),
        Selector::Field(_, _) => Ok(()),
        Selector::Cell(_, _) => Ok(()),
    }
}

// A call, behind those in its arguments.
#[cycle(values)]
fn add_call(
    program: &IndexedProgram<'_>,
    body: &Body<'_>,
    terms: &mut Terms,
    supply: &mut Supply,
    calls: &mut List<Called>,
    variables: &mut List<Head>,
    call: &Call,
) -> Result<(), GenFault>
    requires may { MayMake program.now body.now terms.old (supply_of supply.old) }
    requires typed { IsFunctionCall program.now body.now.here call.now }
    ensures { AddsCalls result (made_calls program.now (routine_in program.now body.now.here) (supply_of supply.old) (call.now ∷ []))
        (call_events program.now (routine_in program.now body.now.here) (supply_of supply.old) call.now) terms.old terms.new
        variables.old variables.new calls.old calls.new (supply_of supply.new) }
{
    let given = add_arguments(
        program,
        body,
        terms,
        supply,
        calls,
        call.arguments.as_slice(),
    )?;
    call_with(
        program,
        body.alloc,
        terms,
        supply,
        calls,
        variables,
        call,
        given.as_slice(),
    )
}

// A call with these arguments.
fn call_with(
    program: &IndexedProgram<'_>,
    alloc: Global,
    terms: &mut Terms,
    supply: &mut Supply,
    calls: &mut List<Called>,
    variables: &mut List<Head>,
    call: &Call,
    given: &[Argument],
) -> Result<(), GenFault>
    requires function { IsFunctionAt program.now terms.old call.now given.now }
    requires there { AreThere terms.old (supply_of supply.old) }
    ensures { AddsCalls result (call_made program.now call.now (argued_at (arguments_at terms.old given.now) (supply_of supply.old)))
        (made_at_call program.now (routine_at program.now (called_routine call.now)) (argued_at (arguments_at terms.old given.now) (supply_of supply.old))) terms.old terms.new
        variables.old variables.new calls.old calls.new (supply_of supply.new) }
{
    function_call(program, alloc, terms, supply, call, given, calls, variables)
}

// The arguments of a call, from left to right.
#[cycle(values)]
fn add_arguments(
    program: &IndexedProgram<'_>,
    body: &Body<'_>,
    terms: &mut Terms,
    supply: &mut Supply,
    calls: &mut List<Called>,
    given: &[ArgumentText],
) -> Result<List<Argument>, GenFault>
    requires may { MayMake program.now body.now terms.old (supply_of supply.old) }
    requires typed { FitParameters program.now body.now.here (arguments_of given.now) }
    ensures { AddsArguments result (argued program.now (routine_in program.now body.now.here) (supply_of supply.old) (arguments_of given.now))
        (argument_events program.now (routine_in program.now body.now.here) (supply_of supply.old) (arguments_of given.now)) terms.old terms.new calls.old calls.new (supply_of supply.new) }
{
    let mut arguments = List::new(body.alloc);
    for argument in given {
        let one = add_argument(program, body, terms, supply, calls, argument)?;
        arguments.push(one)?;
    }
    Ok(arguments)
}

// An argument: a value for a value parameter, a place for a VAR parameter.
#[cycle(values)]
fn add_argument(
    program: &IndexedProgram<'_>,
    body: &Body<'_>,
    terms: &mut Terms,
    supply: &mut Supply,
    calls: &mut List<Called>,
    given: &ArgumentText,
) -> Result<Argument, GenFault>
    requires may { MayMake program.now body.now terms.old (supply_of supply.old) }
    requires typed { FitParameters program.now body.now.here (argument_before given.now no_arguments) }
    ensures { AddsArgument result (argued program.now (routine_in program.now body.now.here) (supply_of supply.old) (argument_before given.now no_arguments))
        (argument_events program.now (routine_in program.now body.now.here) (supply_of supply.old) (argument_before given.now no_arguments)) terms.old terms.new calls.old calls.new (supply_of supply.new) }
{
    match given {
        ArgumentText::Value(e) => {
            let term = add_value(program, body, terms, supply, calls, e)?;
            Ok(Argument::Given(term))
        }
        ArgumentText::Place(d) => {
            let target = add_place(program, body, terms, supply, calls, d)?;
            Ok(Argument::AtPlace(target))
        }
    }
}

// The place of a designator.
#[cycle(values)]
fn add_place(
    program: &IndexedProgram<'_>,
    body: &Body<'_>,
    terms: &mut Terms,
    supply: &mut Supply,
    calls: &mut List<Called>,
    d: &Designator,
) -> Result<Target, GenFault>
    requires may { MayMake program.now body.now terms.old (supply_of supply.old) }
    requires typed { IsPlace program.now body.now.here d.now }
    ensures { AddsPlace result (placed program.now (routine_in program.now body.now.here) (supply_of supply.old) d.now)
        (place_events program.now (routine_in program.now body.now.here) (supply_of supply.old) d.now) terms.old terms.new calls.old calls.new (supply_of supply.new) }
{
    let mut way = start(body, terms, d.name)?;
    for selector in d.selectors.as_slice() {
        step(program, body, terms, supply, calls, &mut way, selector)?;
    }
    Ok(way.target)
}

// A step further: into an array or a record, or to the cell that a pointer leads to.
#[cycle(values)]
fn step(
    program: &IndexedProgram<'_>,
    body: &Body<'_>,
    terms: &mut Terms,
    supply: &mut Supply,
    calls: &mut List<Called>,
    way: &mut Way,
    selector: &Selector,
) -> Result<(), GenFault>
    requires may { MayMake program.now body.now terms.old (supply_of supply.old) }
    requires way { IsWay terms.old way.old }
    requires typed { AreSteps program.now body.now.here (target_in terms.old way.old.target) (selector_before selector.now no_selectors) }
    ensures { AddsStep result (selected program.now (routine_in program.now body.now.here) (placed_at (target_in terms.old way.old.target) (supply_of supply.old)) (selector_before selector.now no_selectors))
        (step_events program.now (routine_in program.now body.now.here) (placed_at (target_in terms.old way.old.target) (supply_of supply.old)) (selector_before selector.now no_selectors))
        terms.old terms.new way.new calls.old calls.new (supply_of supply.new) }
{
    match selector {
        Selector::Index(_, e) => {
            let index = add_value(program, body, terms, supply, calls, e)?;
            to_element(terms, way, index)
        }
        Selector::Field(_, f) => to_field(terms, way, *f),
        Selector::Cell(_, t) => to_cell(body.alloc, terms, way, *t),
    }
}
