// What is used or called.

ghost use Rattle.std.specs.Prelude.{◌≡◌};
ghost use Rattle.spv_program.specs.declared.types.Item.TheVariants.{Class};
ghost use Rattle.spv_program.specs.Uses.{Shared, name_root};
ghost use Rattle.spv_effects.specs.frame_walk.Events.{Used};
ghost use Rattle.spv_effects.specs.frame_events.Names.{named};
ghost use Rattle.spv_effects.specs.frame_events.EventViews.{event_of};

use crate::frame_events::names::NameSet;
use spv_logic::TypeId;
use spv_logic::names::Symbol;
use spv_program::Item;
use spv_program::typed::Call;

/// A use, with whether it may change and the line, or a call.
#[derive(Clone, Copy)]
pub enum Event<'a> {
    /// A routine's own name is used.
    Own(Symbol, bool, u32),
    /// Something that the program shares is used.
    Shared(Item, bool, u32),
    /// A routine is called.
    Called(&'a Call),
}

// The use of a name.
pub(crate) fn name_use<'a>(own: &NameSet, x: Symbol, changes: bool, line: u32) -> Event<'a>
    ensures { event_of result ≡ Used (record { root = name_root (named own.now) x; changes = changes; line = line }) }
{
    if own.has(x) {
        Event::Own(x, changes, line)
    } else {
        Event::Shared(Item::Variable(x), changes, line)
    }
}

// The use of the cells of a type.
pub(crate) fn cell_use<'a>(t: TypeId, changes: bool, line: u32) -> Event<'a>
    ensures { event_of result ≡ Used (record { root = Shared (Class t); changes = changes; line = line }) }
{
    Event::Shared(Item::Class(t), changes, line)
}
