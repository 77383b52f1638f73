// The variables and classes of a program, as a routine or the main block sees them.

ghost use Rattle.std.specs.Prelude.{◌≡◌, ◌++◌, ◌||◌, [], ◌∷◌, IfOk, OnOk, map};
ghost use Rattle.spv_effects.specs.frame_events.Names.{named};
ghost use Rattle.spv_program.specs.Changes.{all_roots};
ghost use Rattle.spv_program.specs.Programs.{routine_in};
ghost use Rattle.spv_effects.specs.mod_sets.Roots.{AddsOwn, class_row, named_root, named_row, own_in, plain_root, row_of, rows_of};

use crate::frame_events::NameSet;
use crate::mod_sets::kinds::sort_of;
use crate::mod_sets::names::own_names_in;
use crate::mod_sets::sets::all_types;
use spv_logic::names::Symbol;
use spv_logic::{Head, RoutineId, TypeId};
use spv_program::typed::Program;
use spv_program::{Item, TypeForm};
use std::alloc::{AllocError, Global};
use std::marker::Model;

/// What a use is of.
#[derive(Clone, Copy)]
pub enum Root {
    /// A routine's own name.
    Own(Symbol),
    /// Something that the program shares.
    Shared(Item),
}

/// A variable or a class, with the head that stands for it in terms.
#[derive(Clone, Copy)]
pub struct RootHead {
    /// What it is.
    pub root: Root,
    /// What stands for it.
    pub head: Head,
}

/// The variables and classes of a program as a routine or the main block sees them, in the order of declaration: own names,
/// program variables, classes.
#[derive(Drop)]
pub struct AllRoots {
    rows: Vec<RootHead>,
    own: NameSet,
}

impl Model for AllRoots {
    ghost use Rattle.std.specs.Prelude.{◌≡◌, List};
    ghost use Rattle.spv_effects.specs.declared.mod_sets.roots.RootHead.{RootHead};

    ghost Value = { List RootHead };

    ghost use Rattle.spv_effects.specs.frame_events.Names.{named};
    ghost use Rattle.spv_effects.specs.mod_sets.Roots.{own_in};

    ghost view = { λ a. a.rows.items };

    ghost invariant = { λ a. named a.own ≡ own_in a.rows.items };
}

impl AllRoots {
    // The variables and classes, in order.
    pub(crate) fn as_slice(&self) -> &[RootHead]
        ensures { result.now ≡ self.now }
    {
        self.rows.as_slice()
    }

    // The names that are a routine's own.
    pub(crate) fn own(&self) -> &NameSet
        ensures { named result.now ≡ own_in self.now }
    {
        &self.own
    }
}

fn push(rows: &mut Vec<RootHead>, root: Root, head: Head) -> Result<(), AllocError>
    ensures { OnOk result (rows_of rows.new.items ≡ rows_of rows.old.items ++ row_of (record { root = root; head = head }) ∷ []) }
{
    rows.push(RootHead { root, head })?;
    Ok(())
}

fn named_root(own: bool, x: Symbol) -> Root
    ensures { plain_root result ≡ named_root own x }
{
    if own {
        Root::Own(x)
    } else {
        Root::Shared(Item::Variable(x))
    }
}

// Puts variables behind what is there: own names, or variables of the program.
fn add_names(
    rows: &mut Vec<RootHead>,
    forms: &[TypeForm],
    own: bool,
    names: &[(Symbol, TypeId)],
) -> Result<(), AllocError>
    ensures { OnOk result (rows_of rows.new.items ≡ rows_of rows.old.items ++ map (named_row forms.now own) names.now) }
{
    for (x, t) in names {
        push(
            rows,
            named_root(own, *x),
            Head::Var(*x, sort_of(forms, *t), 0),
        )?;
    }
    Ok(())
}

// Puts the classes of types behind what is there.
fn add_classes(rows: &mut Vec<RootHead>, types: &[TypeId]) -> Result<(), AllocError>
    ensures { OnOk result (rows_of rows.new.items ≡ rows_of rows.old.items ++ map class_row types.now) }
{
    for t in types {
        push(rows, Root::Shared(Item::Class(*t)), Head::ClassVar(*t, 0))?;
    }
    Ok(())
}

fn add_own(own: &mut NameSet, root: Root) -> Result<(), AllocError>
    ensures { OnOk result (AddsOwn own.old own.new (plain_root root)) }
{
    match root {
        Root::Own(x) => own.add(x),
        Root::Shared(_) => Ok(()),
    }
}

// The own names among these.
fn own_of(alloc: Global, rows: &[RootHead]) -> Result<NameSet, AllocError>
    ensures { IfOk result (λ own. named own ≡ own_in rows.now) }
{
    let mut own = NameSet::new(alloc);
    for row in rows {
        add_own(&mut own, row.root)?;
    }
    Ok(own)
}

fn with_own(alloc: Global, rows: Vec<RootHead>) -> Result<AllRoots, AllocError>
    ensures { IfOk result (λ roots. roots ≡ rows.items) }
{
    let own = own_of(alloc, rows.as_slice())?;
    Ok(AllRoots { rows, own })
}

/// What a routine, or the main block, sees: each own name, each variable of the program, and the class of each type, those
/// of types with names first, with the heads that stand for them.
pub fn all_roots(
    alloc: Global,
    program: &Program,
    here: Option<RoutineId>,
) -> Result<AllRoots, AllocError>
    ensures { IfOk result (λ roots. rows_of roots ≡ all_roots program.now (routine_in program.now here)) }
{
    let own = own_names_in(alloc, program, here)?;
    let types = all_types(alloc, program)?;
    let forms = program.forms.as_slice();
    let mut rows = Vec::new(alloc);
    add_names(&mut rows, forms, true, own.as_slice())?;
    add_names(&mut rows, forms, false, program.variables.as_slice())?;
    add_classes(&mut rows, types.as_slice())?;
    with_own(alloc, rows)
}
