// Sets of types, of routines and of roots.

ghost use Rattle.std.specs.List.{list_any};
ghost use Rattle.std.specs.Prelude.{◌≡◌, [], IfOk, OnOk};
ghost use Rattle.spv_program.specs.Changes.{types_of_names, types_from, all_types};
ghost use Rattle.spv_program.specs.Types.{same_type};
ghost use Rattle.spv_program.specs.Uses.{same_root};
ghost use Rattle.spv_effects.specs.mod_sets.Roots.{plain_root};
ghost use Rattle.spv_effects.specs.mod_sets.Sets.{Adds, has_root, no_roots, with_routine, with_type, with_types};

use crate::frame_events::NameSet;
use crate::mod_sets::roots::Root;
use indexmap::IndexSet;
use spv_logic::names::Symbol;
use spv_logic::{RoutineId, TypeId};
use spv_program::typed::Program;
use spv_program::{Item, TypeForm};
use std::alloc::{AllocError, Global};
use std::marker::Model;

/// Types, each once, in the order in which they were added. A look-up goes by a hash.
#[derive(Drop)]
pub(crate) struct TypeSet {
    types: IndexSet<TypeId>,
}

impl Model for TypeSet {
    ghost use Rattle.std.specs.Prelude.{List};
    ghost use Rattle.spv_logic.specs.declared.types.TypeId.{TypeId};

    ghost Value = { List TypeId };

    ghost view = { λ s. s.types.keys };
}

impl TypeSet {
    fn new(alloc: Global) -> TypeSet
        ensures { result ≡ [] }
    {
        TypeSet {
            types: IndexSet::new(alloc),
        }
    }

    fn has(&self, t: TypeId) -> bool
        ensures { result ≡ list_any (same_type t) self.now }
    {
        self.types.contains(&t)
    }

    fn add(&mut self, t: TypeId) -> Result<(), AllocError>
        ensures { OnOk result (self.new ≡ with_type self.old t) }
    {
        self.types.insert_full(t)?;
        Ok(())
    }

    // The types, in order.
    pub fn as_slice(&self) -> &[TypeId]
        ensures { result.now ≡ self.now }
    {
        self.types.as_slice()
    }
}

// Puts the types of these names at the end, each that is new.
fn add_named(types: &mut TypeSet, names: &[(Symbol, TypeId)]) -> Result<(), AllocError>
    ensures { OnOk result (types.new ≡ with_types types.old (types_of_names names.now)) }
{
    for (_, t) in names {
        types.add(*t)?;
    }
    Ok(())
}

// Puts the types with these forms, which are numbered from 0 on, at the end, each that is new.
fn add_numbered(types: &mut TypeSet, forms: &[TypeForm]) -> Result<(), AllocError>
    ensures { OnOk result (types.new ≡ with_types types.old (types_from 0 forms.now)) }
{
    let mut number: u32 = 0;
    for _form in forms {
        types.add(TypeId(number))?;
        number = number.checked_add(1).ok_or(AllocError)?;
    }
    Ok(())
}

// The types of a program: those that have names, in the order of the names, and then all others.
pub(crate) fn all_types(alloc: Global, program: &Program) -> Result<TypeSet, AllocError>
    ensures { IfOk result (λ types. types ≡ all_types program.now) }
{
    let mut types = TypeSet::new(alloc);
    add_named(&mut types, program.types.as_slice())?;
    add_numbered(&mut types, program.forms.as_slice())?;
    Ok(types)
}

/// Routines, each once, in the order in which they were added. A look-up goes by a hash.
#[derive(Drop)]
pub(crate) struct RoutineSet {
    numbers: IndexSet<RoutineId>,
}

impl Model for RoutineSet {
    ghost use Rattle.std.specs.Prelude.{List};
    ghost use Rattle.spv_logic.specs.declared.conditions.RoutineId.{RoutineId};

    ghost Value = { List RoutineId };

    ghost view = { λ s. s.numbers.keys };
}

impl RoutineSet {
    // The empty set.
    pub fn new(alloc: Global) -> RoutineSet
        ensures { result ≡ [] }
    {
        RoutineSet {
            numbers: IndexSet::new(alloc),
        }
    }

    // Puts a routine at the end, if it is new.
    pub fn add(&mut self, number: RoutineId) -> Result<(), AllocError>
        ensures { OnOk result (self.new ≡ with_routine self.old number) }
    {
        self.numbers.insert_full(number)?;
        Ok(())
    }

    // The routines, in order.
    pub fn as_slice(&self) -> &[RoutineId]
        ensures { result.now ≡ self.now }
    {
        self.numbers.as_slice()
    }
}

/// Roots, each once. A look-up goes by a hash.
#[derive(Drop)]
pub(crate) struct RootSet {
    own: NameSet,
    variables: NameSet,
    classes: TypeSet,
}

impl RootSet {
    // The empty set.
    pub fn new(alloc: Global) -> RootSet
        ensures { result ≡ no_roots }
    {
        RootSet {
            own: NameSet::new(alloc),
            variables: NameSet::new(alloc),
            classes: TypeSet::new(alloc),
        }
    }

    // Whether a root is in the set.
    pub fn has(&self, root: Root) -> bool
        ensures { result ≡ has_root self.now (plain_root root) }
    {
        match root {
            Root::Own(x) => self.own.has(x),
            Root::Shared(Item::Variable(x)) => self.variables.has(x),
            Root::Shared(Item::Class(t)) => self.classes.has(t),
        }
    }

    // Puts a root into the set.
    pub fn add(&mut self, root: Root) -> Result<(), AllocError>
        ensures { OnOk result (Adds self.old self.new (λ q. same_root q (plain_root root))) }
    {
        match root {
            Root::Own(x) => self.own.add(x),
            Root::Shared(Item::Variable(x)) => self.variables.add(x),
            Root::Shared(Item::Class(t)) => self.classes.add(t),
        }
    }
}
