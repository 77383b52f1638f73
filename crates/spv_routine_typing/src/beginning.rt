// Routines that are announced, and bodies that begin.

ghost use Rattle.std.specs.Prelude.{◌≡◌, true, None, Some, IfOk, IfErr, Ok, OnOk, map};
ghost use Rattle.spv_logic.specs.declared.names.names.Symbol.{Symbol as Plain};
ghost use Rattle.spv_program.specs.typed.ProgramViews.{global_of};
ghost use Rattle.spv_typing.specs.Known.{is_free};
ghost use Rattle.spv_typing.specs.RoutineWalk as spec;
ghost use Rattle.spv_typing.specs.ProgramWalk as walk;
ghost use Rattle.spv_environments.specs.Answers.{Stops};
ghost use Rattle.spv_environments.specs.Views.{specified_of};
ghost use Rattle.spv_heading_typing.specs.Names.{has};
ghost use Rattle.spv_heading_typing.specs.Headings.{headed_of, IsListed};
ghost use Rattle.spv_routine_typing.specs.Again.{begin_again};
ghost use Rattle.spv_routine_typing.specs.Row.{headed_by, outside_at, progress_at};

use crate::again::{heading_names, is_bare, is_bare_form};
use crate::begun::Begun;
use crate::listed::listed;
use crate::local_typing::locals;
use crate::numbers::{Bodies, heading_name};
use spv_environments::{Known, Own, Specified};
use spv_heading_typing::{Headed, heading};
use spv_logic::names::Symbol;
use spv_program::ordered_map::Named;
use spv_tree::syntax::{Clauses, Heading, Locals};
use spv_typing::TypeFault;
use std::alloc::Global;

// The first heading of a routine.
fn first_heading(
    bodies: &Bodies,
    alloc: Global,
    known: &mut Known,
    tree: &Heading,
    clauses: &Clauses,
) -> Result<Headed, TypeFault>
    ensures ok { IfOk result (λ h. walk.first_heading bodies.now known.old tree.now clauses.now ≡ Ok (headed_of (spec.heading_name tree.now.form).symbol h)) }
    ensures err { IfErr result (λ e. Stops e (walk.first_heading bodies.now known.old tree.now clauses.now)) }
    ensures known { OnOk result (known.new ≡ known.old) }
    ensures free { OnOk result (is_free known.old (spec.heading_name tree.now.form).symbol ≡ true) }
    ensures listed { IfOk result IsListed }
{
    let name = heading_name(&tree.form);
    if !known.is_free_for_call(name.symbol) {
        return Err(TypeFault::DeclaredTwice(name.line, name.symbol));
    }
    heading(known, alloc, bodies.number(name.symbol), tree, clauses)
}

// A routine whose body begins behind its local declarations.
fn begin_body(
    known: &mut Known,
    alloc: Global,
    name: Symbol,
    specified: Specified,
    own: Named<Own>,
    listed: Named<bool>,
    tree: &Locals,
) -> Result<Begun, TypeFault>
    requires listed { (x : Plain) → has listed x ≡ spec.is_listed (map global_of specified.heading.globals) x }
    ensures ok { IfOk result (λ b. walk.begun_of known.old (headed_by name specified own) tree.now ≡ Ok (progress_at known.new (Some b))) }
    ensures err { IfErr result (λ e. Stops e (walk.begun_of known.old (headed_by name specified own) tree.now)) }
{
    let local = locals(known, alloc, name, own, &listed, tree)?;
    Ok(Begun {
        name,
        specified,
        local,
    })
}

/// A routine that is not announced, whose body begins.
pub(crate) fn begin_first(
    bodies: &Bodies,
    alloc: Global,
    known: &mut Known,
    tree: &Heading,
    clauses: &Clauses,
    inner: &Locals,
) -> Result<Begun, TypeFault>
    ensures ok { IfOk result (λ b. walk.begin_first bodies.now known.old tree.now clauses.now inner.now ≡ Ok (progress_at known.new (Some b))) }
    ensures err { IfErr result (λ e. Stops e (walk.begin_first bodies.now known.old tree.now clauses.now inner.now)) }
{
    let name = heading_name(&tree.form).symbol;
    let headed = first_heading(bodies, alloc, known, tree, clauses)?;
    let heading = headed.specified.heading.copied(alloc)?;
    known.announce(name, heading)?;
    let Headed {
        specified,
        own,
        listed,
    } = headed;
    begin_body(known, alloc, name, specified, own, listed, inner)
}

/// The body of a routine that waited for it and does so no longer.
pub(crate) fn begin_announced(
    alloc: Global,
    known: &mut Known,
    name: Symbol,
    first: Specified,
    tree: &Heading,
    clauses: &Clauses,
    inner: &Locals,
) -> Result<Begun, TypeFault>
    ensures ok { IfOk result (λ b. begin_again known.old (specified_of name first) tree.now clauses.now inner.now ≡ Ok (progress_at known.new (Some b))) }
    ensures err { IfErr result (λ e. Stops e (begin_again known.old (specified_of name first) tree.now clauses.now inner.now)) }
{
    if !(is_bare_form(first.heading.is_function, &tree.form) && is_bare(clauses)) {
        return Err(TypeFault::DeclaredTwice(tree.line, heading_name(&tree.form).symbol));
    }
    let own = heading_names(known, alloc, &first)?;
    let listed = listed(alloc, &first.heading.globals)?;
    begin_body(known, alloc, name, first, own, listed, inner)
}

/// A routine that is announced, where none of its name waits.
pub(crate) fn announce_first(
    bodies: &Bodies,
    alloc: Global,
    known: &mut Known,
    tree: &Heading,
    clauses: &Clauses,
) -> Result<(), TypeFault>
    requires new { walk.awaited_of known.old.awaited (spec.heading_name tree.now.form).symbol ≡ None }
    ensures ok { OnOk result (walk.announce bodies.now known.old tree.now clauses.now None ≡ Ok (outside_at known.new)) }
    ensures err { IfErr result (λ e. Stops e (walk.announce bodies.now known.old tree.now clauses.now None)) }
{
    let name = heading_name(&tree.form).symbol;
    let headed = first_heading(bodies, alloc, known, tree, clauses)?;
    let heading = headed.specified.heading.copied(alloc)?;
    known.announce(name, heading)?;
    known.await_body(name, headed.specified)?;
    Ok(())
}
