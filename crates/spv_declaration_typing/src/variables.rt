// VAR.

ghost use Rattle.std.specs.Prelude.{◌≡◌, [], Ok, IfOk, IfErr, OnOk};
ghost use Rattle.spv_typing.specs.Outcomes.{each};
ghost use Rattle.spv_typing.specs.Known as known_names;
ghost use Rattle.spv_typing.specs.TypeWalk.{all_names};
ghost use Rattle.spv_typing.specs.DeclarationWalk as spec;
ghost use Rattle.spv_environments.specs.Answers.{Stops};
ghost use Rattle.spv_declaration_typing.specs.type_typing.Names.{only_names};
ghost use Rattle.spv_declaration_typing.specs.type_typing.Fields.{NoneThere, under};
ghost use Rattle.spv_declaration_typing.specs.canonical_types.Types.{settled};

use crate::canonical_types::{NewType, read_type, settle};
use crate::type_typing::{Free, new_names};
use spv_environments::{Known, Own, Scope};
use spv_logic::TypeId;
use spv_logic::names::Symbol;
use spv_program::ordered_map::Named;
use spv_tree::syntax::{Name, Several, TypeDenoter, Vars};
use spv_typing::TypeFault;
use std::alloc::{AllocError, Global};

/// The names that constants, types and variables of the program may take.
#[derive(Clone, Copy)]
pub struct FreeNames<'k> {
    /// What is known.
    pub known: &'k Known,
}

impl<'k> Free for FreeNames<'k> {
    ghost use Rattle.spv_typing.specs.Known.{is_free};

    ghost free = { λ f x. is_free f.known.now x };

    fn is_free(&self, x: Symbol) -> bool {
        let known = self.known;
        known.is_free(x)
    }
}

// The names of further variables, each new.
fn new_variables(
    known: &Known,
    alloc: Global,
    names: &Several<Name>,
) -> Result<Named<u32>, TypeFault>
    ensures ok { IfOk result (λ n. each (spec.new_name (known_names.is_free known.now)) [] (all_names names.now) ≡ Ok (only_names n)) }
    ensures missing { IfOk result (λ n. NoneThere known.now.program.variables (only_names n)) }
    ensures err { IfErr result (λ e. Stops e (each (spec.new_name (known_names.is_free known.now)) [] (all_names names.now))) }
{
    let free = FreeNames { known };
    new_names(&free, alloc, names)
}

fn type_at_top(known: &Known, alloc: Global, tree: &TypeDenoter) -> Result<NewType, TypeFault>
    ensures ok { IfOk result (λ n. spec.type_walk (known_names.at_top known.now) tree.now ≡ Ok (settled known.now n)) }
    ensures err { IfErr result (λ e. Stops e (spec.type_walk (known_names.at_top known.now) tree.now)) }
{
    let own: Named<Own> = Named::new(alloc);
    let scope = Scope {
        known,
        parameters: &own,
        result: None,
        own: &own,
        routine: None,
    };
    read_type(&scope, alloc, tree)
}

fn add_variables(known: &mut Known, names: &Named<u32>, t: TypeId) -> Result<(), AllocError>
    requires { NoneThere known.old.program.variables (only_names names.now) }
    ensures { OnOk result (known.new ≡ spec.with_program known.old (spec.with_variables known.old.program known.old.program.forms (under t (only_names names.now)))) }
{
    for place in 0..names.len() {
        let (x, _) = names.entry(place).unwrap();
        known.add_variable(x, t)?;
    }
    Ok(())
}

fn vars_walk(known: &mut Known, alloc: Global, tree: &Vars) -> Result<(), TypeFault>
    ensures ok { OnOk result (spec.vars_walk known.old tree.now ≡ Ok known.new) }
    ensures err { IfErr result (λ e. Stops e (spec.vars_walk known.old tree.now)) }
{
    let names = new_variables(known, alloc, &tree.names)?;
    let read = type_at_top(known, alloc, &tree.of)?;
    let t = settle(known, alloc, read)?;
    add_variables(known, &names, t)?;
    Ok(())
}

/// The variables of a VAR part.
pub fn var_part(known: &mut Known, alloc: Global, items: &[Vars]) -> Result<(), TypeFault>
    ensures ok { OnOk result (each spec.vars_walk known.old items.now ≡ Ok known.new) }
    ensures err { IfErr result (λ e. Stops e (each spec.vars_walk known.old items.now)) }
{
    for item in items {
        vars_walk(known, alloc, item)?;
    }
    Ok(())
}
