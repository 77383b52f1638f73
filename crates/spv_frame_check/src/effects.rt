// What routines read and write.

ghost use Rattle.std.specs.Prelude.{◌≡◌, [], IfOk, OnOk, true, false};
ghost use Rattle.spv_program.specs.Frames.{items_once};
ghost use Rattle.spv_program.specs.Uses.{Shared};
ghost use Rattle.spv_effects.specs.frame_events.EventViews.{event_of, events_of};
ghost use Rattle.spv_frame_check.specs.Effects.{Follows, Takes, kept, wanted};
ghost use Rattle.spv_frame_check.specs.Sets.{no_items};

use crate::items::ItemSet;
use spv_effects::frame_events::Event;
use spv_logic::list::List;
use spv_program::Item;
use std::alloc::{AllocError, Global};
use std::marker::Model;

/// The variables and classes of the program that a routine reads, and those that it writes, each where it stands first;
/// without those of the routines that it calls.
#[derive(Drop)]
pub struct Effects {
    /// What it reads.
    pub reads: List<Item>,
    /// What it writes.
    pub writes: List<Item>,
}

impl Model for Effects {
    ghost use Rattle.spv_program.specs.Frames as plain;

    ghost Value = { plain.Effects };

    ghost view = { λ e. record { reads = e.reads; writes = e.writes } };
}

/// Items, each once, in the order in which they came.
#[derive(Drop)]
pub(crate) struct Once {
    items: List<Item>,
    seen: ItemSet,
}

impl Once {
    fn new(alloc: Global) -> Once
        ensures { result ≡ record { items = []; seen = no_items } }
    {
        Once {
            items: List::new(alloc),
            seen: ItemSet::new(alloc),
        }
    }

    fn take(&mut self, item: Item) -> Result<(), AllocError>
        ensures { OnOk result (Takes (Shared item) self.old self.new) }
    {
        if self.seen.has(item) {
            return Ok(());
        }
        self.seen.add(item)?;
        self.items.push(item)
    }
}

fn wanted(writes: bool, changes: bool) -> bool
    ensures { result ≡ wanted writes changes }
{
    if writes { changes } else { !changes }
}

fn follow(once: &mut Once, writes: bool, event: Event<'_>) -> Result<(), AllocError>
    ensures { OnOk result (Follows writes (event_of event.entry) once.old once.new) }
{
    match event {
        Event::Own(_, _, _) => Ok(()),
        Event::Shared(item, changes, _) => {
            if wanted(writes, changes) {
                once.take(item)
            } else {
                Ok(())
            }
        }
        Event::Called(_) => Ok(()),
    }
}

// The items that are written, or read.
fn items(alloc: Global, writes: bool, events: &[Event<'_>]) -> Result<List<Item>, AllocError>
    ensures { IfOk result (λ items. items ≡ items_once [] (kept writes (events_of events.now))) }
{
    let mut once = Once::new(alloc);
    for event in events {
        follow(&mut once, writes, *event)?;
    }
    Ok(once.items)
}

// What a routine with these uses reads and writes.
pub(crate) fn effects_in(alloc: Global, events: &[Event<'_>]) -> Result<Effects, AllocError>
    ensures reads { IfOk result (λ e. e.reads ≡ items_once [] (kept false (events_of events.now))) }
    ensures writes { IfOk result (λ e. e.writes ≡ items_once [] (kept true (events_of events.now))) }
{
    let reads = items(alloc, false, events)?;
    let writes = items(alloc, true, events)?;
    Ok(Effects { reads, writes })
}
