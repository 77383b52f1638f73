// The walk along a row of routines.

ghost use Rattle.std.specs.Prelude.{◌≡◌, None, Some, IfOk, IfErr, Ok, OnOk, option_map};
ghost use Rattle.spv_tree.specs.declared.syntax.routines.RoutineMark.TheVariants.{Announced, Begins, Ends};
ghost use Rattle.spv_typing.specs.Known.{Known as KnownText};
ghost use Rattle.spv_typing.specs.Outcomes.{Outcome};
ghost use Rattle.spv_typing.specs.RoutineWalk as spec;
ghost use Rattle.spv_typing.specs.ProgramWalk as walk;
ghost use Rattle.spv_environments.specs.Answers.{Stops};
ghost use Rattle.spv_routine_typing.specs.Row.{along_walk, begun_in, outside_at, progress_at};

use crate::beginning::{announce_first, begin_announced, begin_first};
use crate::begun::Begun;
use crate::ending::end_body;
use crate::numbers::{Bodies, heading_name};
use spv_environments::Known;
use spv_tree::syntax::{Block, Clauses, Heading, Locals, RoutineMark};
use spv_typing::TypeFault;
use std::alloc::Global;

// A routine that is announced, unless one of its name is.
#[tactic(auto, using(crate::proofs::Steps::announced_twice, crate::proofs::Steps::not_announced))]
fn announce(
    bodies: &Bodies,
    alloc: Global,
    known: &mut Known,
    tree: &Heading,
    clauses: &Clauses,
) -> Result<(), TypeFault>
    ensures ok { OnOk result (walk.announce bodies.now known.old tree.now clauses.now (walk.awaited_of known.old.awaited (spec.heading_name tree.now.form).symbol) ≡ Ok (outside_at known.new)) }
    ensures err { IfErr result (λ e. Stops e (walk.announce bodies.now known.old tree.now clauses.now (walk.awaited_of known.old.awaited (spec.heading_name tree.now.form).symbol))) }
{
    let name = heading_name(&tree.form).symbol;
    if known.is_awaited(name) {
        return Err(TypeFault::DeclaredTwice(tree.line, name));
    }
    announce_first(bodies, alloc, known, tree, clauses)
}

// A body that begins.
fn begin(
    bodies: &Bodies,
    alloc: Global,
    known: &mut Known,
    tree: &Heading,
    clauses: &Clauses,
    inner: &Locals,
) -> Result<Begun, TypeFault>
    ensures ok { IfOk result (λ b. walk.begin bodies.now known.old tree.now clauses.now inner.now (walk.awaited_of known.old.awaited (spec.heading_name tree.now.form).symbol) ≡ Ok (progress_at known.new (Some b))) }
    ensures err { IfErr result (λ e. Stops e (walk.begin bodies.now known.old tree.now clauses.now inner.now (walk.awaited_of known.old.awaited (spec.heading_name tree.now.form).symbol))) }
{
    let name = heading_name(&tree.form).symbol;
    match known.take_awaited(name) {
        Some(first) => begin_announced(alloc, known, name, first, tree, clauses, inner),
        None => begin_first(bodies, alloc, known, tree, clauses, inner),
    }
}

// That no routine stands inside another.
fn outside(begun: &Option<Begun>, tree: &Heading) -> Result<(), TypeFault>
    ensures ok { OnOk result (begun.now ≡ None) }
    ensures err { IfErr result (λ e. (k : KnownText) (next : Outcome walk.Progress) → Stops e (walk.unless_begun (option_map (begun_in k) begun.now) tree.now next)) }
{
    let name = heading_name(&tree.form).symbol;
    match begun {
        Some(_) => Err(TypeFault::Nested(tree.line, name)),
        None => Ok(()),
    }
}

#[tactic(auto, using(crate::proofs::Steps::announced_outside, crate::proofs::Steps::announced_stops))]
fn announced(
    bodies: &Bodies,
    alloc: Global,
    known: &mut Known,
    begun: &Option<Begun>,
    tree: &Heading,
    clauses: &Clauses,
) -> Result<(), TypeFault>
    ensures ok { OnOk result (walk.mark_walk bodies.now (progress_at known.old begun.now) (Announced tree.now clauses.now) ≡ Ok (outside_at known.new)) }
    ensures err { IfErr result (λ e. Stops e (walk.mark_walk bodies.now (progress_at known.old begun.now) (Announced tree.now clauses.now))) }
{
    outside(begun, tree)?;
    announce(bodies, alloc, known, tree, clauses)
}

#[tactic(auto, using(crate::proofs::Steps::begins_outside, crate::proofs::Steps::begins_stops))]
fn begins(
    bodies: &Bodies,
    alloc: Global,
    known: &mut Known,
    begun: &Option<Begun>,
    tree: &Heading,
    clauses: &Clauses,
    inner: &Locals,
) -> Result<Begun, TypeFault>
    ensures ok { IfOk result (λ b. walk.mark_walk bodies.now (progress_at known.old begun.now) (Begins tree.now clauses.now inner.now) ≡ Ok (progress_at known.new (Some b))) }
    ensures err { IfErr result (λ e. Stops e (walk.mark_walk bodies.now (progress_at known.old begun.now) (Begins tree.now clauses.now inner.now))) }
{
    outside(begun, tree)?;
    begin(bodies, alloc, known, tree, clauses, inner)
}

fn ends(
    bodies: &Bodies,
    alloc: Global,
    known: &mut Known,
    begun: Option<Begun>,
    tree: &Block,
) -> Result<(), TypeFault>
    ensures ok { OnOk result (walk.mark_walk bodies.now (progress_at known.old begun) (Ends tree.now) ≡ Ok (outside_at known.new)) }
    ensures err { IfErr result (λ e. Stops e (walk.mark_walk bodies.now (progress_at known.old begun) (Ends tree.now))) }
{
    match begun {
        Some(begun) => end_body(known, alloc, begun, tree),
        None => Ok(()),
    }
}

// One mark more, and the routine whose body has begun behind it.
fn mark(
    bodies: &Bodies,
    alloc: Global,
    known: &mut Known,
    begun: Option<Begun>,
    tree: &RoutineMark,
) -> Result<Option<Begun>, TypeFault>
    ensures ok { IfOk result (λ b. walk.mark_walk bodies.now (progress_at known.old begun) tree.now ≡ Ok (progress_at known.new b)) }
    ensures err { IfErr result (λ e. Stops e (walk.mark_walk bodies.now (progress_at known.old begun) tree.now)) }
{
    match tree {
        RoutineMark::Announced(heading, clauses) => {
            announced(bodies, alloc, known, &begun, heading, clauses)?;
            Ok(None)
        }
        RoutineMark::Begins(heading, clauses, inner) => {
            let inside = begins(bodies, alloc, known, &begun, heading, clauses, inner)?;
            Ok(Some(inside))
        }
        RoutineMark::Ends(block) => {
            ends(bodies, alloc, known, begun, block)?;
            Ok(None)
        }
    }
}

// One mark behind the other, from outside of all routines.
fn along(
    bodies: &Bodies,
    alloc: Global,
    known: &mut Known,
    marks: &[RoutineMark],
) -> Result<(), TypeFault>
    ensures ok { OnOk result (along_walk bodies.now known.old marks.now ≡ Ok known.new) }
    ensures err { IfErr result (λ e. Stops e (along_walk bodies.now known.old marks.now)) }
{
    let mut begun = None;
    for tree in marks {
        begun = mark(bodies, alloc, known, begun, tree)?;
    }
    Ok(())
}

/// Goes along the routines of a text, or to the first fault in them: what is known then has them.
pub fn routines(known: &mut Known, alloc: Global, marks: &[RoutineMark]) -> Result<(), TypeFault>
    ensures ok { OnOk result (walk.routines_walk known.old marks.now ≡ Ok known.new) }
    ensures err { IfErr result (λ e. Stops e (walk.routines_walk known.old marks.now)) }
{
    let bodies = Bodies::of(alloc, marks)?;
    along(&bodies, alloc, known, marks)
}
