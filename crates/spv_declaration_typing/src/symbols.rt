// DECLARE.

ghost use Rattle.std.specs.Prelude.{◌≡◌, [], ◌∷◌, ◌++◌, Ok, IfOk, IfErr, OnOk};
ghost use Rattle.spv_typing.specs.Outcomes.{each, all_of};
ghost use Rattle.spv_typing.specs.Known.{at_top, meaning};
ghost use Rattle.spv_typing.specs.TypeWalk.{all_names};
ghost use Rattle.spv_typing.specs.DeclarationWalk as spec;
ghost use Rattle.spv_environments.specs.Answers.{Stops};
ghost use Rattle.spv_declaration_typing.specs.Signatures.{signature_walk};

use spv_environments::{Known, Meaning, Signature};
use spv_logic::list::List;
use spv_logic::{Sort, TypeId};
use spv_tree::syntax::{Name, NameOrClass, Several, SortName, SymbolText};
use spv_typing::TypeFault;
use std::alloc::{AllocError, Global};

fn sort_named(known: &Known, line: u32, x: Name) -> Result<Sort, TypeFault>
    ensures ok { IfOk result (λ s. spec.sort_named known.now.program.forms line x (meaning (at_top known.now) x.symbol) ≡ Ok s) }
    ensures err { IfErr result (λ e. Stops e (spec.sort_named known.now.program.forms line x (meaning (at_top known.now) x.symbol))) }
{
    match known.meaning(x.symbol) {
        Some(Meaning::Type(t)) => Ok(known.sort_of(t)),
        Some(Meaning::List) => Ok(Sort::List),
        Some(_) => Err(TypeFault::WrongType(line)),
        None => Err(TypeFault::Undeclared(x.line, x.symbol)),
    }
}

/// The type whose cells `#` and a name stand for, in the program.
pub fn class_named(known: &Known, line: u32, x: Name) -> Result<TypeId, TypeFault>
    ensures ok { IfOk result (λ t. spec.class_named line x (meaning (at_top known.now) x.symbol) ≡ Ok t) }
    ensures err { IfErr result (λ e. Stops e (spec.class_named line x (meaning (at_top known.now) x.symbol))) }
{
    match known.meaning(x.symbol) {
        Some(Meaning::Type(t)) => Ok(t),
        Some(_) => Err(TypeFault::WrongType(line)),
        None => Err(TypeFault::Undeclared(x.line, x.symbol)),
    }
}

fn sort_walk(known: &Known, tree: SortName) -> Result<Sort, TypeFault>
    ensures ok { IfOk result (λ s. spec.sort_walk known.now tree ≡ Ok s) }
    ensures err { IfErr result (λ e. Stops e (spec.sort_walk known.now tree)) }
{
    match tree.form {
        NameOrClass::Name(x) => sort_named(known, tree.line, x),
        NameOrClass::Class(x) => {
            let t = class_named(known, tree.line, x)?;
            Ok(Sort::Class(t))
        }
    }
}

fn push(sorts: &mut Vec<Sort>, sort: Sort) -> Result<(), AllocError>
    ensures { OnOk result (sorts.new.items ≡ sorts.old.items ++ sort ∷ []) }
{
    sorts.push(sort)?;
    Ok(())
}

fn all_sorts(
    known: &Known,
    alloc: Global,
    names: &Several<SortName>,
) -> Result<List<Sort>, TypeFault>
    ensures ok { IfOk result (λ l. all_of (spec.sort_walk known.now) (all_names names.now) ≡ Ok l) }
    ensures err { IfErr result (λ e. Stops e (all_of (spec.sort_walk known.now) (all_names names.now))) }
{
    let first = sort_walk(known, names.first)?;
    let mut sorts = Vec::new(alloc);
    push(&mut sorts, first)?;
    for name in names.more.as_slice() {
        let next = sort_walk(known, *name)?;
        push(&mut sorts, next)?;
    }
    Ok(List::from_vec(sorts))
}

fn arguments(
    known: &Known,
    alloc: Global,
    names: &Option<Several<SortName>>,
) -> Result<List<Sort>, TypeFault>
    ensures ok { IfOk result (λ l. all_of (spec.sort_walk known.now) (spec.sorts_in_brackets names.now) ≡ Ok l) }
    ensures err { IfErr result (λ e. Stops e (all_of (spec.sort_walk known.now) (spec.sorts_in_brackets names.now))) }
{
    match names {
        None => Ok(List::new(alloc)),
        Some(names) => all_sorts(known, alloc, names),
    }
}

fn signature(known: &Known, alloc: Global, tree: &SymbolText) -> Result<Signature, TypeFault>
    ensures ok { IfOk result (λ s. signature_walk known.now tree.now ≡ Ok s) }
    ensures err { IfErr result (λ e. Stops e (signature_walk known.now tree.now)) }
{
    let args = arguments(known, alloc, &tree.arguments)?;
    let result = sort_walk(known, tree.result)?;
    Ok(Signature { args, result })
}

fn symbol_walk(known: &mut Known, alloc: Global, tree: &SymbolText) -> Result<(), TypeFault>
    ensures ok { OnOk result (spec.symbol_walk known.old tree.now ≡ Ok known.new) }
    ensures err { IfErr result (λ e. Stops e (spec.symbol_walk known.old tree.now)) }
{
    let name = tree.name;
    if !known.is_free_for_call(name.symbol) {
        return Err(TypeFault::DeclaredTwice(name.line, name.symbol));
    }
    let signature = signature(known, alloc, tree)?;
    known.add_symbol(name.symbol, signature)?;
    Ok(())
}

/// The symbols of a DECLARE part.
pub fn symbol_part(known: &mut Known, alloc: Global, items: &[SymbolText]) -> Result<(), TypeFault>
    ensures ok { OnOk result (each spec.symbol_walk known.old items.now ≡ Ok known.new) }
    ensures err { IfErr result (λ e. Stops e (each spec.symbol_walk known.old items.now)) }
{
    for item in items {
        symbol_walk(known, alloc, item)?;
    }
    Ok(())
}
