// TYPE.

ghost use Rattle.std.specs.Prelude.{◌≡◌, ◌||◌, Ok, IfOk, IfErr, OnOk, map};
ghost use Rattle.std.specs.List.{list_any};
ghost use Rattle.spv_logic.specs.declared.names.names.Symbol.{Symbol as SymbolText};
ghost use Rattle.spv_program.specs.Lists.{same_name};
ghost use Rattle.spv_typing.specs.Outcomes.{each};
ghost use Rattle.spv_typing.specs.Merging.{renumbered};
ghost use Rattle.spv_typing.specs.Known.{at_top};
ghost use Rattle.spv_typing.specs.TypeWalk as types;
ghost use Rattle.spv_typing.specs.DeclarationWalk as spec;
ghost use Rattle.spv_environments.specs.Answers.{Stops};
ghost use Rattle.spv_declaration_typing.specs.pointer_types.Counting.{all_firsts};
ghost use Rattle.spv_declaration_typing.specs.canonical_types.Types.{types_with};
ghost use Rattle.spv_declaration_typing.specs.Parts.{part_of, is_in};

use crate::pointer_types::{Merged, Renumbering, Written, merge, whole};
use crate::type_typing::{Targets, denoted};
use spv_environments::{Known, Own, Scope};
use spv_logic::TypeId;
use spv_program::ordered_map::Named;
use spv_tree::syntax::{Name, TypeDenoter, Typedef};
use spv_typing::TypeFault;
use std::alloc::{AllocError, Global};

fn add_name(names: &mut Named<u32>, x: Name) -> Result<(), AllocError>
    ensures { OnOk result ((y : SymbolText) → is_in names.new y ≡ (is_in names.old y || same_name x.symbol y)) }
{
    if names.has(x.symbol) {
        return Ok(());
    }
    names.insert(x.symbol, x.line)?;
    Ok(())
}

// The names that a TYPE part declares, with their lines.
fn names_of(alloc: Global, types: &[Typedef]) -> Result<Named<u32>, AllocError>
    ensures { IfOk result (λ n. (x : SymbolText) → is_in n x ≡ list_any (λ d. same_name d.name.symbol x) types.now) }
{
    let mut names = Named::new(alloc);
    for one in types {
        add_name(&mut names, one.name)?;
    }
    Ok(names)
}

fn type_at_top(
    known: &Known,
    names: &Named<u32>,
    alloc: Global,
    new: &mut Vec<Written>,
    tree: &TypeDenoter,
) -> Result<TypeId, TypeFault>
    ensures ok { IfOk result (λ t. types.denoted (at_top known.now) (is_in names.now) (types_with known.now new.old.items) tree.now
        ≡ Ok (record { written = types_with known.now new.new.items; type = t })) }
    ensures err { IfErr result (λ e. Stops e (types.denoted (at_top known.now) (is_in names.now) (types_with known.now new.old.items) tree.now)) }
{
    let own: Named<Own> = Named::new(alloc);
    let scope = Scope {
        known,
        parameters: &own,
        result: None,
        own: &own,
        routine: None,
    };
    denoted(&scope, Targets::Part(names), alloc, new, tree)
}

#[tactic(auto, using(spv_environments::proofs::Free::no_type))]
fn typedef_walk(
    known: &mut Known,
    names: &Named<u32>,
    alloc: Global,
    new: &mut Vec<Written>,
    tree: &Typedef,
) -> Result<(), TypeFault>
    ensures ok { OnOk result (spec.typedef_walk (is_in names.now) (part_of known.old new.old.items) tree.now ≡ Ok (part_of known.new new.new.items)) }
    ensures err { IfErr result (λ e. Stops e (spec.typedef_walk (is_in names.now) (part_of known.old new.old.items) tree.now)) }
{
    let name = tree.name;
    if !known.is_free(name.symbol) {
        return Err(TypeFault::DeclaredTwice(name.line, name.symbol));
    }
    let t = type_at_top(known, names, alloc, new, &tree.of)?;
    known.add_type(name.symbol, t)?;
    Ok(())
}

fn typedefs(
    known: &mut Known,
    names: &Named<u32>,
    alloc: Global,
    new: &mut Vec<Written>,
    items: &[Typedef],
) -> Result<(), TypeFault>
    ensures ok { OnOk result (each (spec.typedef_walk (is_in names.now)) (part_of known.old new.old.items) items.now ≡ Ok (part_of known.new new.new.items)) }
    ensures err { IfErr result (λ e. Stops e (each (spec.typedef_walk (is_in names.now)) (part_of known.old new.old.items) items.now)) }
{
    for item in items {
        typedef_walk(known, names, alloc, new, item)?;
    }
    Ok(())
}

// The names of types stand for the types under their new numbers.
fn renumber(known: &mut Known, numbers: &Renumbering)
    ensures { known.new ≡ spec.with_program known.old (spec.with_types known.old.program known.old.program.forms (map (λ n. (n.0, renumbered (all_firsts numbers.now) n.1)) known.old.program.types)) }
{
    for place in 0..known.types().len() {
        let (_, t) = known.types().entry(place).unwrap();
        let new = numbers.number(*t);
        known.set_type(place, new);
    }
}

// Equal pointer types are put together.
fn put_together(known: &mut Known, alloc: Global, new: Vec<Written>) -> Result<(), AllocError>
    ensures { OnOk result (known.new ≡ spec.with_merged (part_of known.old new.items)) }
{
    let all = whole(alloc, known.forms(), new)?;
    let Merged { forms, numbers } = merge(alloc, known.types(), all.as_slice())?;
    known.set_forms(alloc, forms)?;
    renumber(known, &numbers);
    Ok(())
}

/// The types of a TYPE part.
pub fn type_part(known: &mut Known, alloc: Global, items: &[Typedef]) -> Result<(), TypeFault>
    ensures ok { OnOk result (spec.type_part_walk known.old items.now ≡ Ok known.new) }
    ensures err { IfErr result (λ e. Stops e (spec.type_part_walk known.old items.now)) }
{
    let names = names_of(alloc, items)?;
    let mut new = Vec::new(alloc);
    typedefs(known, &names, alloc, &mut new, items)?;
    put_together(known, alloc, new)?;
    Ok(())
}
