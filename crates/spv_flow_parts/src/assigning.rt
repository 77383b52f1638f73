//! The conditions before assignments and NEW.

ghost use Rattle.std.specs.Prelude.{◌≡◌, ◌<◌, ℕ, [], ◌∷◌, length, IsTrue, Some};
ghost use Rattle.spv_logic.specs.declared.operators.Head.TheVariants as head;
ghost use Rattle.spv_logic.specs.Shapes.{sort_of_type};
ghost use Rattle.spv_logic.specs.Sorts.{term_sort};
ghost use Rattle.spv_term.specs.Arena.{sort_at, tree};
ghost use Rattle.spv_term.specs.substitution.Images.{head_at};
ghost use Rattle.spv_program.specs.Places as plain;
ghost use Rattle.spv_program.specs.Programs.{routine_in};
ghost use Rattle.spv_program.specs.Statements.{Assign, New};
ghost use Rattle.spv_program.specs.Terms.{alone, binary, ternary};
ghost use Rattle.spv_program.specs.Typing.{statement_ok};
ghost use Rattle.spv_meaning.specs.Before as meaning;
ghost use Rattle.spv_assign.specs.Conditions.{AreIn, conditions_of};
ghost use Rattle.spv_assign.specs.creation_trace.StatementEvents.{replacing_events};
ghost use Rattle.spv_assign.specs.structures.Targets.{IsTarget, target_in};
ghost use Rattle.spv_assign.specs.supply.Numbers.{supply_of};
ghost use Rattle.spv_flow_parts.specs.Walks.{Comes, ComesTo, MakesTerm, made_of};
ghost use Rattle.spv_flow_parts.specs.calls.Arguments.{MayMake};
ghost use Rattle.spv_flow_parts.specs.assigning.Events.{assign_events, creation_events, new_events};

use crate::calls::{place, value};
use crate::leaves::in_front;
use crate::{Body, IndexedProgram};
use spv_assign::Pending;
use spv_assign::creation_trace::GenFault;
use spv_assign::limited_steps::{assumed, binary, limited, made, negated, replaced};
use spv_assign::structures::{Target, whole_with};
use spv_assign::supply::Supply;
use spv_effects::mod_sets::sort_of;
use spv_logic::names::Symbol;
use spv_logic::{Head, Sort, TypeId};
use spv_program::typed::{Designator, Expression};
use spv_term::{TermId, Terms};
use std::alloc::Global;

// Conditions with the whole of a place changed: what stands at the place is this term.
fn with_place(
    alloc: Global,
    terms: &mut Terms,
    target: &Target,
    v: TermId,
    rest: Pending,
) -> Result<Pending, GenFault>
    requires target { IsTarget terms.old target.now }
    requires v { v.0 < length terms.old.nodes }
    requires sorts { term_sort terms.old.shapes terms.old.decls (plain.present (target_in terms.old target.now)) ≡ Some (sort_at terms.old v) }
    requires rest { AreIn terms.old rest.items }
    ensures { ComesTo result (meaning.replaced ((head_at terms.old target.now.root, plain.whole_with (target_in terms.old target.now) (tree terms.old v)) ∷ []) (conditions_of terms.old rest.items))
        (replacing_events ((head_at terms.old target.now.root, plain.whole_with (target_in terms.old target.now) (tree terms.old v)) ∷ []) (conditions_of terms.old rest.items)) terms.old terms.new }
{
    terms.law_arena();
    let whole = whole_with(terms, alloc, target, v);
    let whole = limited(terms, whole)?;
    replaced(terms, alloc, &[(target.root, whole)], &rest)
}

/// The conditions before an assignment: the place and then the value are evaluated, with their calls in front, and the whole
/// that the place is in takes the value there.
pub fn before_assign(
    program: &IndexedProgram<'_>,
    body: &Body<'_>,
    terms: &mut Terms,
    supply: &mut Supply,
    d: &Designator,
    e: &Expression,
    rest: Pending,
) -> Result<Pending, GenFault>
    requires may { MayMake program.now body.now terms.old (supply_of supply.old) }
    requires typed { IsTrue (statement_ok program.now (routine_in program.now body.now.here) (Assign d.now e.now)) }
    requires rest { AreIn terms.old rest.items }
    ensures { Comes result (meaning.before program.now body.now.here (Assign d.now e.now) (made_of terms.old rest.items (supply_of supply.old)))
        (assign_events program.now body.now.here d.now e.now (made_of terms.old rest.items (supply_of supply.old))) terms.old terms.new (supply_of supply.new) }
{
    let to = place(program, body, terms, supply, d)?;
    let v = value(program, body, terms, supply, e)?;
    let changed = with_place(body.alloc, terms, &to.target, v.term, rest)?;
    let behind = in_front(body.alloc, body.here, v.calls.as_slice(), changed)?;
    in_front(body.alloc, body.here, to.calls.as_slice(), behind)
}

// The first name of a type; one that is never printed where it has none.
fn title_of(program: &IndexedProgram<'_>, t: TypeId) -> Symbol
    ensures { result ≡ meaning.title_of program.now t }
{
    match program.program().titles.as_slice().get(t.0 as usize) {
        Some(Some(name)) => *name,
        Some(None) => Symbol(0),
        None => Symbol(0),
    }
}

// That a pointer leads to no cell of its type.
fn no_member(terms: &mut Terms, pointer: TermId, t: TypeId) -> Result<TermId, GenFault>
    requires pointer { pointer.0 < length terms.old.nodes }
    requires sort { sort_at terms.old pointer ≡ Sort.Ptr t }
    requires class { t.0 < length terms.old.shapes }
    ensures { MakesTerm result (meaning.negated (binary head.PointerTo (tree terms.old pointer) (alone (head.ClassVar t 0)))) terms.old terms.new }
{
    let class = made(terms, Head::ClassVar(t, 0), &[])?;
    let member = binary(terms, Head::PointerTo, pointer, class)?;
    negated(terms, member)
}

// That a pointer is not NIL.
fn not_nil(terms: &mut Terms, pointer: TermId, t: TypeId) -> Result<TermId, GenFault>
    requires pointer { pointer.0 < length terms.old.nodes }
    requires sort { sort_at terms.old pointer ≡ Sort.Ptr t }
    requires class { t.0 < length terms.old.shapes }
    ensures { MakesTerm result (meaning.negated (binary head.Eq (tree terms.old pointer) (alone (head.Nil t)))) terms.old terms.new }
{
    let nil = made(terms, Head::Nil(t), &[])?;
    let equal = binary(terms, Head::Eq, pointer, nil)?;
    negated(terms, equal)
}

// Conditions with a class extended by a cell.
fn with_cell(
    alloc: Global,
    terms: &mut Terms,
    t: TypeId,
    pointer: TermId,
    content: TermId,
    rest: Pending,
) -> Result<Pending, GenFault>
    requires class { t.0 < length terms.old.shapes }
    requires pointer { pointer.0 < length terms.old.nodes }
    requires pointer_sort { sort_at terms.old pointer ≡ Sort.Ptr t }
    requires content { content.0 < length terms.old.nodes }
    requires content_sort { sort_at terms.old content ≡ sort_of_type terms.old.shapes t }
    requires rest { AreIn terms.old rest.items }
    ensures { ComesTo result (meaning.replaced ((head.ClassVar t 0, ternary head.Extend (alone (head.ClassVar t 0)) (tree terms.old pointer) (tree terms.old content)) ∷ []) (conditions_of terms.old rest.items))
        (replacing_events ((head.ClassVar t 0, ternary head.Extend (alone (head.ClassVar t 0)) (tree terms.old pointer) (tree terms.old content)) ∷ []) (conditions_of terms.old rest.items)) terms.old terms.new }
{
    let class = made(terms, Head::ClassVar(t, 0), &[])?;
    let extended = made(terms, Head::Extend, &[class, pointer, content])?;
    replaced(terms, alloc, &[(class, extended)], &rest)
}

// The conditions before the creation of a cell at a place, where the pointer to it and its content are fresh.
fn before_creation(
    alloc: Global,
    terms: &mut Terms,
    t: TypeId,
    target: &Target,
    pointer: TermId,
    content: TermId,
    rest: Pending,
) -> Result<Pending, GenFault>
    requires class { t.0 < length terms.old.shapes }
    requires target { IsTarget terms.old target.now }
    requires sorts { term_sort terms.old.shapes terms.old.decls (plain.present (target_in terms.old target.now)) ≡ Some (Sort.Ptr t) }
    requires pointer { pointer.0 < length terms.old.nodes }
    requires pointer_sort { sort_at terms.old pointer ≡ Sort.Ptr t }
    requires content { content.0 < length terms.old.nodes }
    requires content_sort { sort_at terms.old content ≡ sort_of_type terms.old.shapes t }
    requires rest { AreIn terms.old rest.items }
    ensures { ComesTo result (meaning.before_creation t (target_in terms.old target.now) (tree terms.old pointer) (tree terms.old content) (conditions_of terms.old rest.items))
        (creation_events t (target_in terms.old target.now) (tree terms.old pointer) (tree terms.old content) (conditions_of terms.old rest.items)) terms.old terms.new }
{
    let placed = with_place(alloc, terms, target, pointer, rest)?;
    let extended = with_cell(alloc, terms, t, pointer, content, placed)?;
    let none = no_member(terms, pointer, t)?;
    let there = not_nil(terms, pointer, t)?;
    let behind = assumed(none, extended)?;
    assumed(there, behind)
}

/// The conditions before NEW: the place is evaluated, with its calls in front; it becomes a fresh pointer, and the class of its
/// type is extended by a cell that was none of its members.
pub fn before_new(
    program: &IndexedProgram<'_>,
    body: &Body<'_>,
    terms: &mut Terms,
    supply: &mut Supply,
    d: &Designator,
    t: TypeId,
    rest: Pending,
) -> Result<Pending, GenFault>
    ghost line: { ℕ }
    requires may { MayMake program.now body.now terms.old (supply_of supply.old) }
    requires typed { IsTrue (statement_ok program.now (routine_in program.now body.now.here) (New line d.now t)) }
    requires rest { AreIn terms.old rest.items }
    ensures { Comes result (meaning.before program.now body.now.here (New line d.now t) (made_of terms.old rest.items (supply_of supply.old)))
        (new_events program.now body.now.here d.now t (made_of terms.old rest.items (supply_of supply.old))) terms.old terms.new (supply_of supply.new) }
{
    let to = place(program, body, terms, supply, d)?;
    let fresh = supply.fresh_variable(terms, d.name, Sort::Ptr(t));
    let pointer = limited(terms, fresh)?;
    let sort = sort_of(program.program().forms.as_slice(), t);
    let fresh = supply.fresh_variable(terms, title_of(program, t), sort);
    let content = limited(terms, fresh)?;
    let created = before_creation(body.alloc, terms, t, &to.target, pointer, content, rest)?;
    in_front(body.alloc, body.here, to.calls.as_slice(), created)
}
