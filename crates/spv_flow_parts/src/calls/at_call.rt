// What a call asks and promises, in the caller's terms.

ghost use Rattle.std.specs.Prelude.{◌≡◌, ◌<◌, ◌≤◌, ◌++◌, [], ◌∷◌, length, map, IfOk, IsSome, IsTrue, List, OnOk, Option, Some};
ghost use Rattle.spv_logic.specs.declared.conditions.RoutineId.{RoutineId};
ghost use Rattle.spv_logic.specs.declared.operators.Head.{Head};
ghost use Rattle.spv_logic.specs.Sorts.{head_in_range, sort_in_range, term_sort, variable_sort};
ghost use Rattle.spv_logic.specs.Terms.{Term};
ghost use Rattle.spv_logic.specs.Substitution.{is_variable, replaced, substitute as substitute_term};
ghost use Rattle.spv_term.specs.Arena.{Arena, Extends, tree};
ghost use Rattle.spv_term.specs.substitution.Images.{ArePairs};
ghost use Rattle.spv_program.specs.Programs as programs;
ghost use Rattle.spv_program.specs.Programs.{shapes};
ghost use Rattle.spv_program.specs.Calls as plain;
ghost use Rattle.spv_program.specs.ExpressionTerms.{sort_of_result};
ghost use Rattle.spv_program.specs.Supplies as supplies;
ghost use Rattle.spv_program.specs.Terms.{alone, entry_term, exit_term, item_head};
ghost use Rattle.spv_program.specs.Types.{sort_of};
ghost use Rattle.spv_program.specs.typed.ProgramViews.{formal_of, routine_of};
ghost use Rattle.spv_program.specs.typed.FormulaViews.{annotation_of};
ghost use Rattle.spv_expression_terms.specs.term_walk.Laws.{HasNamesOf, variable_scope};
ghost use Rattle.spv_assign.specs.Conditions.{pairs_of};
ghost use Rattle.spv_assign.specs.creation_trace.Events.{Answers};
ghost use Rattle.spv_assign.specs.creation_trace.StatementEvents.{pair_terms, several};
ghost use Rattle.spv_assign.specs.supply.Numbers.{AreThere, supply_of};
ghost use Rattle.spv_flow_parts.specs.Walks.{MakesTerm};
ghost use Rattle.spv_flow_parts.specs.leaves.Values.{IsTermIfThere};
ghost use Rattle.spv_flow_parts.specs.calls.Arguments.{Calling, AddsCalls, AddsPairs, AreAfter, AreArguments, ArePresent, FitHeads, HaveSorts, IsArgument, IsAtCall, IsCallable, MakesBy, MakesCall, argument_in, call_line, called_routine, called_with, initial_pair, one_call, pairs_at_exit};
ghost use Rattle.spv_flow_parts.specs.calls.Events.{at_call_events, entry_events, exit_events, made_at_call};

use crate::IndexedProgram;
use crate::body_tables::{item_sort, variables_of};
use crate::calls::callees::{entry_formula, exit_formula};
use crate::calls::passed::Argument;
use crate::leaves::Called;
use spv_assign::creation_trace::GenFault;
use spv_assign::limited_steps::{limited, made};
use spv_assign::structures::present;
use spv_assign::supply::Supply;
use spv_effects::mod_sets::sort_of;
use spv_expression_terms::sort_table::SortTable;
use spv_logic::list::List;
use spv_logic::names::Symbol;
use spv_logic::{Head, RoutineId, Sort};
use spv_program::ordered_map::Named;
use spv_program::typed::{Annotation, Call, Formal, Routine};
use spv_program::{Item, TypeForm};
use spv_term::substitution::substitute;
use spv_term::{TermId, Terms};
use std::alloc::{AllocError, Global};

fn push_pair(pairs: &mut Vec<(TermId, TermId)>, from: TermId, to: TermId) -> Result<(), AllocError>
    ensures { OnOk result (pairs.new.items ≡ pairs.old.items ++ (from, to) ∷ []) }
{
    pairs.push((from, to))?;
    Ok(())
}

/// A variable or class and what stands in its place, behind the pairs that are there.
pub fn add_pair(
    terms: &mut Terms,
    pairs: &mut Vec<(TermId, TermId)>,
    head: Head,
    t: TermId,
) -> Result<(), GenFault>
    requires variable { IsTrue (is_variable head) }
    requires types { IsTrue (head_in_range terms.old.shapes head) }
    requires t { t.0 < length terms.old.nodes }
    requires sort { term_sort terms.old.shapes terms.old.decls (tree terms.old t) ≡ Some (variable_sort head) }
    ensures { AddsPairs result ((head, tree terms.old t) ∷ []) terms.old terms.new pairs.old.items pairs.new.items }
{
    terms.law_arena();
    let name = made(terms, head, &[])?;
    push_pair(pairs, name, t)?;
    Ok(())
}

fn present_argument(terms: &mut Terms, given: &Argument) -> Result<TermId, GenFault>
    requires given { IsArgument terms.old given.now (argument_in terms.old given.now) }
    requires sorts { IsSome (term_sort terms.old.shapes terms.old.decls (plain.present_argument (argument_in terms.old given.now))) }
    ensures { MakesTerm result (plain.present_argument (argument_in terms.old given.now)) terms.old terms.new }
{
    match given {
        Argument::Given(t) => Ok(*t),
        Argument::AtPlace(d) => {
            let made = present(terms, d);
            limited(terms, made)
        }
    }
}

// What stands for the parameters now.
fn present_arguments(
    alloc: Global,
    terms: &mut Terms,
    given: &[Argument],
) -> Result<List<TermId>, GenFault>
    ghost at: { Calling }
    requires sorts { HaveSorts terms.old.shapes terms.old.decls at.arguments }
    requires given { AreArguments terms.old given.now at.arguments }
    ensures grows { Extends terms.old terms.new }
    ensures walk { Answers result (several (map plain.present_argument at.arguments)) terms.old terms.new }
    ensures present { IfOk result (λ ts. ArePresent terms.new ts at.arguments) }
{
    let mut ids = List::new(alloc);
    for argument in given {
        let id = present_argument(terms, argument)?;
        ids.push(id)?;
    }
    Ok(ids)
}

// Each parameter and what stands for it at the call.
fn at_call(
    alloc: Global,
    forms: &[TypeForm],
    terms: &mut Terms,
    formals: &[Formal],
    now: &[TermId],
) -> Result<Vec<(TermId, TermId)>, GenFault>
    ghost at: { Calling }
    requires arena { IsCallable at.program terms.old at.routine at.arguments }
    requires formals { map formal_of formals.now ≡ at.routine.formals }
    requires forms { forms.now ≡ at.program.forms }
    requires now { ArePresent terms.old now.now at.arguments }
    ensures grows { Extends terms.old terms.new }
    ensures walk { Answers result (several (pair_terms (plain.at_call at.program at.routine.formals at.arguments))) terms.old terms.new }
    ensures pairs { IfOk result (λ ps. pairs_of terms.new ps.items ≡ plain.at_call at.program at.routine.formals at.arguments) }
    ensures fit { IfOk result (λ ps. ArePairs terms.new ps.items) }
{
    let mut pairs = Vec::new(alloc);
    for place in 0..formals.len() {
        let formal = formals[place];
        let head = Head::Var(formal.name, sort_of(forms, formal.of), 0);
        add_pair(terms, &mut pairs, head, now[place])?;
    }
    Ok(pairs)
}

// A term with the pairs in it; itself where there are none.
fn with_pairs(
    alloc: Global,
    terms: &mut Terms,
    t: TermId,
    pairs: &[(TermId, TermId)],
) -> Result<TermId, GenFault>
    requires t { t.0 < length terms.old.nodes }
    requires pairs { ArePairs terms.old pairs.now }
    ensures { MakesTerm result (substitute_term (plain.replacing (pairs_of terms.old pairs.now)) (tree terms.old t)) terms.old terms.new }
{
    if pairs.is_empty() {
        return Ok(t);
    }
    let answer = substitute(terms, alloc, t, pairs);
    limited(terms, answer)
}

// ENTRY with what stands for the parameters in their places.
fn entry_at_call(
    program: &IndexedProgram<'_>,
    alloc: Global,
    terms: &mut Terms,
    routine: &Routine,
    entry: &Annotation,
    now: &[TermId],
) -> Result<TermId, GenFault>
    ghost at: { Calling }
    requires program { at.program ≡ program.now }
    requires routine { at.routine ≡ routine_of routine.now }
    requires at { IsCallable program.now terms.old (routine_of routine.now) at.arguments }
    requires entry { (routine_of routine.now).entry ≡ Some (annotation_of entry.now) }
    requires now { ArePresent terms.old now.now at.arguments }
    ensures { MakesBy result (substitute_term (plain.replacing (plain.at_call program.now (routine_of routine.now).formals at.arguments)) (entry_term program.now (routine_of routine.now) (annotation_of entry.now)))
        (entry_events program.now (routine_of routine.now) at.arguments (Some (annotation_of entry.now))) terms.old terms.new }
{
    let f = entry_formula(program, alloc, terms, routine, entry)?;
    let forms = program.program().forms.as_slice();
    let pairs = at_call(alloc, forms, terms, routine.formals.as_slice(), now)?;
    with_pairs(alloc, terms, f, pairs.as_slice())
}

// The start of a value parameter, and its argument.
fn add_start(
    forms: &[TypeForm],
    terms: &mut Terms,
    formal: Formal,
    given: &Argument,
    pairs: &mut Vec<(TermId, TermId)>,
) -> Result<(), GenFault>
    ghost whole: { programs.Program }
    requires forms { forms.now ≡ whole.forms }
    requires types { IsTrue (sort_in_range terms.old.shapes (sort_of whole.forms formal.of)) }
    requires given { IsArgument terms.old given.now (argument_in terms.old given.now) }
    requires sort { term_sort terms.old.shapes terms.old.decls (plain.present_argument (argument_in terms.old given.now)) ≡ Some (sort_of whole.forms formal.of) }
    ensures { AddsPairs result (plain.starts_at_call whole (formal_of formal ∷ []) (argument_in terms.old given.now ∷ [])) terms.old terms.new pairs.old.items pairs.new.items }
{
    match given {
        Argument::Given(t) => add_pair(
            terms,
            pairs,
            Head::Start(formal.name, sort_of(forms, formal.of)),
            *t,
        ),
        Argument::AtPlace(_) => Ok(()),
    }
}

// The start of each value parameter, and its argument.
fn add_starts(
    forms: &[TypeForm],
    terms: &mut Terms,
    formals: &[Formal],
    given: &[Argument],
    pairs: &mut Vec<(TermId, TermId)>,
) -> Result<(), GenFault>
    ghost at: { Calling }
    requires at { IsAtCall at.program terms.old at.number at.routine at.arguments }
    requires formals { map formal_of formals.now ≡ at.routine.formals }
    requires forms { forms.now ≡ at.program.forms }
    requires given { AreArguments terms.old given.now at.arguments }
    ensures { AddsPairs result (plain.starts_at_call at.program at.routine.formals at.arguments) terms.old terms.new pairs.old.items pairs.new.items }
{
    for place in 0..given.len() {
        let formal = formals[place];
        add_start(forms, terms, formal, &given[place], pairs)?;
    }
    Ok(())
}

// What stands for the parameter of this name now; none where no parameter has it.
fn passed_by_name(formals: &[Formal], now: &[TermId], name: Symbol) -> Option<TermId>
    ghost at: { Calling }
    requires formals { map formal_of formals.now ≡ at.routine.formals }
    requires count { length formals.now ≤ length now.now }
    ensures { (a : Arena) → ArePresent a now.now at.arguments
        → IsTermIfThere a result (plain.replacing (plain.at_call at.program at.routine.formals at.arguments) (item_head at.program (Some at.routine) (Item.Variable name))) }
{
    for place in 0..formals.len() {
        if formals[place].name == name {
            return Some(now[place]);
        }
    }
    None
}

// What stands for the parameter that an item is now; none where it is none.
fn passed(formals: &[Formal], now: &[TermId], item: Item) -> Option<TermId>
    ghost at: { Calling }
    requires formals { map formal_of formals.now ≡ at.routine.formals }
    requires count { length formals.now ≤ length now.now }
    ensures { (a : Arena) → ArePresent a now.now at.arguments
        → IsTermIfThere a result (plain.replacing (plain.at_call at.program at.routine.formals at.arguments) (item_head at.program (Some at.routine) item)) }
{
    match item {
        Item::Variable(x) => passed_by_name(formals, now, x),
        Item::Class(_) => None,
    }
}

// What stands for a parameter, where there is one, and else a variable or class itself.
fn passed_or_itself(
    terms: &mut Terms,
    given: Option<TermId>,
    head: Head,
) -> Result<TermId, GenFault>
    ghost by: { Option Term }
    requires given { IsTermIfThere terms.old given by }
    requires variable { IsTrue (is_variable head) }
    requires types { IsTrue (head_in_range terms.old.shapes head) }
    ensures { MakesTerm result (replaced by (alone head)) terms.old terms.new }
{
    match given {
        Some(t) => Ok(t),
        None => made(terms, head, &[]),
    }
}

// What stands at the call for an item that an INITIAL name has.
fn item_at_call(
    terms: &mut Terms,
    variables: &SortTable<'_>,
    formals: &[Formal],
    now: &[TermId],
    item: Item,
) -> Result<TermId, GenFault>
    ghost at: { Calling }
    requires at { IsAtCall at.program terms.old at.number at.routine at.arguments }
    requires formals { map formal_of formals.now ≡ at.routine.formals }
    requires variables { HasNamesOf variables.now (variable_scope at.program (Some at.routine)) }
    requires now { ArePresent terms.old now.now at.arguments }
    requires types { IsTrue (head_in_range terms.old.shapes (item_head at.program (Some at.routine) item)) }
    ensures { MakesTerm result (substitute_term (plain.replacing (plain.at_call at.program at.routine.formals at.arguments)) (alone (item_head at.program (Some at.routine) item))) terms.old terms.new }
{
    let given = passed(formals, now, item);
    passed_or_itself(terms, given, item_head(variables, item))
}

// An INITIAL name, and what its item is at the call.
fn add_initial_item(
    terms: &mut Terms,
    variables: &SortTable<'_>,
    formals: &[Formal],
    now: &[TermId],
    name: Symbol,
    item: Item,
    pairs: &mut Vec<(TermId, TermId)>,
) -> Result<(), GenFault>
    ghost at: { Calling }
    requires at { IsAtCall at.program terms.old at.number at.routine at.arguments }
    requires formals { map formal_of formals.now ≡ at.routine.formals }
    requires variables { HasNamesOf variables.now (variable_scope at.program (Some at.routine)) }
    requires now { ArePresent terms.old now.now at.arguments }
    requires types { IsTrue (head_in_range terms.old.shapes (item_head at.program (Some at.routine) item)) }
    ensures { AddsPairs result (initial_pair at.program at.routine at.arguments (name, item) ∷ []) terms.old terms.new pairs.old.items pairs.new.items }
{
    let t = item_at_call(terms, variables, formals, now, item)?;
    let head = Head::Var(name, item_sort(variables, item), 0);
    add_pair(terms, pairs, head, t)
}

// The INITIAL names, and what their items are at the call.
fn add_initial_items(
    terms: &mut Terms,
    variables: &SortTable<'_>,
    formals: &[Formal],
    now: &[TermId],
    initial: &[(Symbol, Item)],
    pairs: &mut Vec<(TermId, TermId)>,
) -> Result<(), GenFault>
    ghost at: { Calling }
    requires at { IsAtCall at.program terms.old at.number at.routine at.arguments }
    requires formals { map formal_of formals.now ≡ at.routine.formals }
    requires variables { HasNamesOf variables.now (variable_scope at.program (Some at.routine)) }
    requires now { ArePresent terms.old now.now at.arguments }
    requires initial { initial.now ≡ at.routine.initial }
    ensures { AddsPairs result (plain.initial_at_call at.program at.routine at.arguments) terms.old terms.new pairs.old.items pairs.new.items }
{
    for (x, item) in initial {
        add_initial_item(terms, variables, formals, now, *x, *item, pairs)?;
    }
    Ok(())
}

/// The variable or class of an item, where these are the variables of its routine's body.
pub fn item_head(variables: &SortTable<'_>, item: Item) -> Head
    ensures { (p : programs.Program) (r : programs.Routine) → HasNamesOf variables.now (variable_scope p (Some r)) → result ≡ item_head p (Some r) item }
{
    match item {
        Item::Variable(x) => Head::Var(x, item_sort(variables, item), 0),
        Item::Class(t) => Head::ClassVar(t, 0),
    }
}

fn add_after(
    terms: &mut Terms,
    after: &[(Head, TermId)],
    pairs: &mut Vec<(TermId, TermId)>,
) -> Result<(), GenFault>
    ghost at: { Calling }
    requires arena { terms.old.shapes ≡ shapes at.program }
    requires decls { terms.old.decls ≡ at.program.symbols }
    requires after { AreAfter terms.old after.now at.after }
    requires fit { FitHeads at.program at.after }
    ensures { AddsPairs result at.after terms.old terms.new pairs.old.items pairs.new.items }
{
    for (head, t) in after {
        add_pair(terms, pairs, *head, *t)?;
    }
    Ok(())
}

// What is replaced in EXIT: the starts of the value parameters, INITIAL names, and what `after` has.
fn exit_pairs(
    program: &IndexedProgram<'_>,
    alloc: Global,
    terms: &mut Terms,
    routine: &Routine,
    variables: &SortTable<'_>,
    given: &[Argument],
    now: &[TermId],
    after: &[(Head, TermId)],
) -> Result<Vec<(TermId, TermId)>, GenFault>
    ghost at: { Calling }
    requires program { at.program ≡ program.now }
    requires routine { at.routine ≡ routine_of routine.now }
    requires at { IsAtCall program.now terms.old at.number (routine_of routine.now) at.arguments }
    requires variables { HasNamesOf variables.now (variable_scope program.now (Some (routine_of routine.now))) }
    requires given { AreArguments terms.old given.now at.arguments }
    requires now { ArePresent terms.old now.now at.arguments }
    requires after { AreAfter terms.old after.now at.after }
    requires fit { FitHeads program.now at.after }
    ensures grows { Extends terms.old terms.new }
    ensures walk { Answers result (several (pair_terms (pairs_at_exit program.now (routine_of routine.now) at.arguments at.after))) terms.old terms.new }
    ensures pairs { IfOk result (λ ps. pairs_of terms.new ps.items ≡ pairs_at_exit program.now (routine_of routine.now) at.arguments at.after) }
    ensures fit { IfOk result (λ ps. ArePairs terms.new ps.items) }
{
    let forms = program.program().forms.as_slice();
    let formals = routine.formals.as_slice();
    let mut pairs = Vec::new(alloc);
    add_starts(forms, terms, formals, given, &mut pairs)?;
    let initial = routine.initial.as_slice();
    add_initial_items(terms, variables, formals, now, initial, &mut pairs)?;
    add_after(terms, after, &mut pairs)?;
    Ok(pairs)
}

// EXIT with the arguments at the starts of the value parameters, INITIAL names as they are at the call, and what `after` says.
fn exit_at_call(
    program: &IndexedProgram<'_>,
    alloc: Global,
    terms: &mut Terms,
    number: RoutineId,
    routine: &Routine,
    exit: &Annotation,
    given: &[Argument],
    now: &[TermId],
    after: &[(Head, TermId)],
) -> Result<TermId, GenFault>
    ghost at: { Calling }
    requires number { at.number ≡ number }
    requires at { IsAtCall program.now terms.old number (routine_of routine.now) at.arguments }
    requires exit { (routine_of routine.now).exit ≡ Some (annotation_of exit.now) }
    requires given { AreArguments terms.old given.now at.arguments }
    requires now { ArePresent terms.old now.now at.arguments }
    requires after { AreAfter terms.old after.now at.after }
    requires fit { FitHeads program.now at.after }
    ensures { MakesBy result (substitute_term (plain.replacing (pairs_at_exit program.now (routine_of routine.now) at.arguments at.after)) (exit_term program.now (routine_of routine.now) (annotation_of exit.now)))
        (exit_events program.now (routine_of routine.now) at.arguments at.after (Some (annotation_of exit.now))) terms.old terms.new }
{
    let variables = variables_of(alloc, program, Some(number))?;
    let f = exit_formula(program, alloc, terms, routine, &variables, exit)?;
    let pairs = exit_pairs(
        program, alloc, terms, routine, &variables, given, now, after,
    )?;
    with_pairs(alloc, terms, f, pairs.as_slice())
}

// ENTRY at the call, where the routine has one.
fn needs_of(
    program: &IndexedProgram<'_>,
    alloc: Global,
    terms: &mut Terms,
    routine: &Routine,
    now: &[TermId],
) -> Result<Option<TermId>, GenFault>
    ghost at: { Calling }
    requires at { IsCallable program.now terms.old (routine_of routine.now) at.arguments }
    requires now { ArePresent terms.old now.now at.arguments }
    ensures grows { Extends terms.old terms.new }
    ensures walk { Answers result (entry_events program.now (routine_of routine.now) at.arguments (routine_of routine.now).entry) terms.old terms.new }
    ensures term { IfOk result (λ t. IsTermIfThere terms.new t (plain.entry_at_call program.now (routine_of routine.now) at.arguments)) }
{
    match &routine.entry {
        None => Ok(None),
        Some(a) => Ok(Some(entry_at_call(program, alloc, terms, routine, a, now)?)),
    }
}

// EXIT at the call, where the routine has one.
fn gives_of(
    program: &IndexedProgram<'_>,
    alloc: Global,
    terms: &mut Terms,
    number: RoutineId,
    routine: &Routine,
    given: &[Argument],
    now: &[TermId],
    after: &[(Head, TermId)],
) -> Result<Option<TermId>, GenFault>
    ghost at: { Calling }
    requires number { at.number ≡ number }
    requires at { IsAtCall program.now terms.old number (routine_of routine.now) at.arguments }
    requires given { AreArguments terms.old given.now at.arguments }
    requires now { ArePresent terms.old now.now at.arguments }
    requires after { AreAfter terms.old after.now at.after }
    requires fit { FitHeads program.now at.after }
    ensures grows { Extends terms.old terms.new }
    ensures walk { Answers result (exit_events program.now (routine_of routine.now) at.arguments at.after (routine_of routine.now).exit) terms.old terms.new }
    ensures term { IfOk result (λ t. IsTermIfThere terms.new t (plain.exit_at_call program.now (routine_of routine.now) at.arguments at.after)) }
{
    match &routine.exit {
        None => Ok(None),
        Some(a) => Ok(Some(exit_at_call(
            program, alloc, terms, number, routine, a, given, now, after,
        )?)),
    }
}

// A call of the routine with this number, with these arguments, where `after` says what stands for its result, its VAR parameters and its VAR items.
pub(crate) fn called(
    program: &IndexedProgram<'_>,
    alloc: Global,
    terms: &mut Terms,
    number: RoutineId,
    line: u32,
    given: &[Argument],
    after: &[(Head, TermId)],
) -> Result<Called, GenFault>
    ghost at: { Calling }
    requires at { IsAtCall program.now terms.old number at.routine at.arguments }
    requires given { AreArguments terms.old given.now at.arguments }
    requires after { AreAfter terms.old after.now at.after }
    requires fit { FitHeads program.now at.after }
    ensures { MakesCall result (called_with program.now at.routine line at.arguments at.after) (at_call_events program.now at.routine at.arguments at.after) terms.old terms.new }
{
    let routine = program.program().routines.get(number.0 as usize);
    let args = present_arguments(alloc, terms, given)?;
    let now = args.as_slice();
    let needs = needs_of(program, alloc, terms, routine, now)?;
    let gives = gives_of(program, alloc, terms, number, routine, given, now, after)?;
    Ok(Called {
        args,
        needs,
        gives,
        line,
    })
}

// The sort of a function's result.
fn result_sort(program: &IndexedProgram<'_>, routine: &Routine) -> Sort
    ensures { result ≡ sort_of_result program.now (routine_of routine.now) }
{
    match routine.result {
        Some(t) => sort_of(program.program().forms.as_slice(), t),
        None => Sort::Int,
    }
}

// A fresh variable of this name and sort.
fn fresh_value(
    terms: &mut Terms,
    supply: &mut Supply,
    name: Symbol,
    sort: Sort,
) -> Result<TermId, GenFault>
    requires types { IsTrue (sort_in_range terms.old.shapes sort) }
    requires there { AreThere terms.old (supply_of supply.old) }
    ensures made { MakesTerm result (alone (supplies.fresh_variable name sort (supply_of supply.old)).head) terms.old terms.new }
    ensures supply { IfOk result (λ t. supply_of supply.new ≡ (supplies.fresh_variable name sort (supply_of supply.old)).supply) }
    ensures there { IfOk result (λ t. AreThere terms.new (supply_of supply.new)) }
{
    let fresh = supply.fresh_variable(terms, name, sort);
    limited(terms, fresh)
}

// A call of a function, behind those in its arguments: its value is a fresh variable that has the function's name.
pub(crate) fn function_call(
    program: &IndexedProgram<'_>,
    alloc: Global,
    terms: &mut Terms,
    supply: &mut Supply,
    call: &Call,
    given: &[Argument],
    calls: &mut List<Called>,
    variables: &mut List<Head>,
) -> Result<(), GenFault>
    ghost at: { Calling }
    requires at { IsAtCall program.now terms.old (called_routine call.now) at.routine at.arguments }
    requires given { AreArguments terms.old given.now at.arguments }
    requires there { AreThere terms.old (supply_of supply.old) }
    ensures { AddsCalls result (one_call program.now at.routine (call_line call.now) at.arguments (supply_of supply.old))
        (made_at_call program.now (Some at.routine) (record { arguments = at.arguments; calls = []; supply = supply_of supply.old })) terms.old terms.new
        variables.old variables.new calls.old calls.new (supply_of supply.new) }
{
    let routine = program.program().routines.get(call.routine.0 as usize);
    let sort = result_sort(program, routine);
    let value = fresh_value(terms, supply, routine.name, sort)?;
    terms.law_arena();
    let head = terms.node(value).head;
    let name = Head::Var(routine.name, sort, 0);
    let one = called(
        program,
        alloc,
        terms,
        call.routine,
        call.line,
        given,
        &[(name, value)],
    )?;
    calls.push(one)?;
    variables.push(head)?;
    Ok(())
}
