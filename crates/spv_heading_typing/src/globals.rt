// GLOBAL lists.

ghost use Rattle.std.specs.Prelude.{◌≡◌, IfOk, IfErr, Ok, Some};
ghost use Rattle.spv_typing.specs.Known.{named};
ghost use Rattle.spv_typing.specs.RoutineWalk as spec;
ghost use Rattle.spv_environments.specs.Answers.{Stops};
ghost use Rattle.spv_environments.specs.Scopes.{own_of};

use crate::finding::{class_item, variable_item};
use crate::shared::Shared;
use spv_environments::{Known, Own};
use spv_program::Item;
use spv_program::ordered_map::Named;
use spv_program::typed::GlobalItem;
use spv_tree::syntax::{GlobalGroup, Name, NameOrClass, Several};
use spv_typing::TypeFault;
use std::alloc::Global;

// The name in an item.
pub(crate) fn item_name(form: NameOrClass) -> Name
    ensures { result ≡ spec.item_name form }
{
    match form {
        NameOrClass::Name(x) => x,
        NameOrClass::Class(x) => x,
    }
}

// Whether a parameter hides an item.
#[tactic(auto, using(crate::proofs::Params::named_alone))]
fn hides(own: &Named<Own>, form: NameOrClass) -> bool
    ensures { result ≡ spec.hides (named own_of own.now) form }
{
    match form {
        NameOrClass::Name(x) => own.has(x.symbol),
        NameOrClass::Class(_) => false,
    }
}

// The item of the program that is written.
#[tactic(auto, using(crate::proofs::Items::variable_shared, crate::proofs::Items::no_variable))]
fn shared_item(known: &Known, line: u32, form: NameOrClass) -> Result<Item, TypeFault>
    ensures ok { IfOk result (λ i. spec.shared_item known.now line form ≡ Ok i) }
    ensures err { IfErr result (λ e. Stops e (spec.shared_item known.now line form)) }
{
    match form {
        NameOrClass::Name(x) => {
            variable_item(line, x, known.meaning(x.symbol))?;
            Ok(Item::Variable(x.symbol))
        }
        NameOrClass::Class(x) => Ok(Item::Class(class_item(known, line, x)?)),
    }
}

// One item more.
fn with_item(
    known: &Known,
    own: &Named<Own>,
    is_var: bool,
    line: u32,
    shared: Shared,
    tree: &spv_tree::syntax::Item,
) -> Result<Shared, TypeFault>
    ensures ok { IfOk result (λ s. spec.item_walk known.now (named own_of own.now) is_var line shared tree.now ≡ Ok s) }
    ensures err { IfErr result (λ e. Stops e (spec.item_walk known.now (named own_of own.now) is_var line shared tree.now)) }
{
    let name = item_name(tree.form);
    if hides(own, tree.form) {
        return Err(TypeFault::DeclaredTwice(name.line, name.symbol));
    }
    let item = shared_item(known, tree.line, tree.form)?;
    if shared.has(item) {
        return Err(TypeFault::DeclaredTwice(name.line, name.symbol));
    }
    Ok(shared.with(GlobalItem { item, is_var, line })?)
}

// The items of a group, behind those of the groups before it.
fn with_group(
    known: &Known,
    own: &Named<Own>,
    shared: Shared,
    tree: &GlobalGroup,
) -> Result<Shared, TypeFault>
    ensures ok { IfOk result (λ s. spec.global_group_walk known.now (named own_of own.now) shared tree.now ≡ Ok s) }
    ensures err { IfErr result (λ e. Stops e (spec.global_group_walk known.now (named own_of own.now) shared tree.now)) }
{
    let (is_var, line) = (tree.by_place, tree.line);
    let mut items = with_item(known, own, is_var, line, shared, &tree.items.first)?;
    for item in tree.items.more.as_slice() {
        items = with_item(known, own, is_var, line, items, item)?;
    }
    Ok(items)
}

// The groups, in order.
fn groups(
    known: &Known,
    own: &Named<Own>,
    alloc: Global,
    tree: &Several<GlobalGroup>,
) -> Result<Shared, TypeFault>
    ensures ok { IfOk result (λ s. spec.globals_walk known.now (named own_of own.now) (Some tree.now) ≡ Ok s) }
    ensures err { IfErr result (λ e. Stops e (spec.globals_walk known.now (named own_of own.now) (Some tree.now))) }
{
    let mut shared = with_group(known, own, Shared::new(alloc), &tree.first)?;
    for group in tree.more.as_slice() {
        shared = with_group(known, own, shared, group)?;
    }
    Ok(shared)
}

/// The items of a GLOBAL list, in order. Each speaks of the program, and a parameter hides a variable.
pub(crate) fn globals(
    known: &Known,
    own: &Named<Own>,
    alloc: Global,
    tree: &Option<Several<GlobalGroup>>,
) -> Result<Shared, TypeFault>
    ensures ok { IfOk result (λ s. spec.globals_walk known.now (named own_of own.now) tree.now ≡ Ok s) }
    ensures err { IfErr result (λ e. Stops e (spec.globals_walk known.now (named own_of own.now) tree.now)) }
{
    match tree {
        Some(several) => groups(known, own, alloc, several),
        None => Ok(Shared::new(alloc)),
    }
}
