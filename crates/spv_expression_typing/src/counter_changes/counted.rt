// The variables that count, and what belongs to the routine itself.

ghost use Rattle.std.specs.Prelude.{◌≡◌, map};
ghost use Rattle.spv_program.specs.Lists.{found};
ghost use Rattle.spv_program.specs.typed.ProgramViews.{global_of};
ghost use Rattle.spv_typing.specs.StatementWalk.{is_name_of, is_place, own_in};
ghost use Rattle.spv_environments.specs.Scopes.{scope_of};
ghost use Rattle.spv_expression_typing.specs.counter_changes.Counted.{callee_counted, global_counted, globals_counted, is_counted, item_counted};

use spv_environments::{Known, Meaning, Scope};
use spv_logic::RoutineId;
use spv_logic::names::Symbol;
use spv_program::Item;
use spv_program::typed::GlobalItem;

/// Whether a variable is among those that count.
#[tactic(auto, using(crate::proofs::counter_changes::Counters::counted_first, crate::proofs::counter_changes::Counters::counted_behind))]
pub fn is_counted(counted: &[Symbol], x: Symbol) -> bool
    ensures { result ≡ is_counted counted.now x }
{
    for v in counted {
        if v.0 == x.0 {
            return true;
        }
    }
    false
}

fn is_place(scope: &Scope<'_, '_>, x: Symbol) -> bool
    ensures { result ≡ is_place (found (scope_of scope.now).own x) }
{
    match scope.own_meaning(x) {
        Some(Meaning::Place(_)) => true,
        Some(Meaning::Type(_)) => false,
        Some(Meaning::List) => false,
        Some(Meaning::Constant(_)) => false,
        Some(Meaning::Start(_)) => false,
        Some(Meaning::Declared(_, _)) => false,
        Some(Meaning::Routine(_, _)) => false,
        None => false,
    }
}

fn is_name_of_routine(scope: &Scope<'_, '_>, x: Symbol) -> bool
    ensures { result ≡ is_name_of (scope_of scope.now).routine x }
{
    match scope.routine {
        Some((name, _)) => name.0 == x.0,
        None => false,
    }
}

/// Whether a name is the routine's own.
pub fn is_own(scope: &Scope<'_, '_>, x: Symbol) -> bool
    ensures { result ≡ own_in (scope_of scope.now) x }
{
    is_place(scope, x) || is_name_of_routine(scope, x)
}

// A variable of the program that a callee may change, where it counts.
fn item_counted(scope: &Scope<'_, '_>, counted: &[Symbol], item: Item) -> Option<Symbol>
    ensures { result ≡ item_counted (own_in (scope_of scope.now)) counted.now item }
{
    match item {
        Item::Variable(x) => {
            if is_own(scope, x) {
                return None;
            }
            if is_counted(counted, x) {
                Some(x)
            } else {
                None
            }
        }
        Item::Class(_) => None,
    }
}

fn global_counted(scope: &Scope<'_, '_>, counted: &[Symbol], global: GlobalItem) -> Option<Symbol>
    ensures { result ≡ global_counted (own_in (scope_of scope.now)) counted.now (global_of global) }
{
    if global.is_var {
        item_counted(scope, counted, global.item)
    } else {
        None
    }
}

// The first variable of a GLOBAL list that counts.
#[tactic(auto, using(crate::proofs::counter_changes::Counters::global_first, crate::proofs::counter_changes::Counters::global_behind))]
fn globals_counted(
    scope: &Scope<'_, '_>,
    counted: &[Symbol],
    globals: &[GlobalItem],
) -> Option<Symbol>
    ensures { result ≡ globals_counted (own_in (scope_of scope.now)) counted.now (map global_of globals.now) }
{
    for global in globals {
        if let Some(x) = global_counted(scope, counted, *global) {
            return Some(x);
        }
    }
    None
}

// The first variable that counts which a call of the routine with this number may change.
#[tactic(auto, using(crate::proofs::counter_changes::Counters::heading_first, crate::proofs::counter_changes::Counters::heading_behind, crate::proofs::counter_changes::Counters::no_heading))]
pub(crate) fn callee_counted(
    scope: &Scope<'_, '_>,
    counted: &[Symbol],
    number: RoutineId,
) -> Option<Symbol>
    ensures { result ≡ callee_counted (scope_of scope.now) counted.now number }
{
    let known = scope.known;
    let mut from = 0;
    while let Some((behind, _, heading)) = known.heading_numbered(number, from) {
        if let Some(x) = globals_counted(scope, counted, heading.globals.as_slice()) {
            return Some(x);
        }
        from = behind;
    }
    None
}
