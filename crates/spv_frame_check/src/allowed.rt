// What a routine may use.

ghost use Rattle.std.specs.Prelude.{◌≡◌, IfOk, OnOk, map, if◌then◌else◌};
ghost use Rattle.spv_program.specs.Programs.{lists};
ghost use Rattle.spv_program.specs.typed.ProgramViews.{global_of};
ghost use Rattle.spv_effects.specs.frame_walk.FrameWalk.{missing_item};
ghost use Rattle.spv_frame_check.specs.Allowed.{allows};
ghost use Rattle.spv_frame_check.specs.Sets.{with_globals, with_item, with_var_groups};

use crate::items::ItemSet;
use spv_program::Item;
use spv_program::typed::GlobalItem;
use std::alloc::{AllocError, Global};

/// What a routine may use: the main block everything, another one the items of its list, and those of its VAR groups also
/// changed.
#[derive(Drop)]
pub(crate) enum Allowed {
    /// Everything.
    Everything,
    /// Items, and those that may be changed.
    Listed(ItemSet, ItemSet),
}

impl Allowed {
    // Whether an item may be used, or where it is asked for, changed.
    pub fn may(&self, item: Item, changes: bool) -> bool
        ensures { result ≡ allows self.now item changes }
    {
        match self {
            Allowed::Everything => true,
            Allowed::Listed(all, var) => {
                if changes {
                    var.has(item)
                } else {
                    all.has(item)
                }
            }
        }
    }
}

fn add_globals(set: &mut ItemSet, globals: &[GlobalItem]) -> Result<(), AllocError>
    ensures { OnOk result (set.new ≡ with_globals set.old (map global_of globals.now)) }
{
    for g in globals {
        set.add(g.item)?;
    }
    Ok(())
}

fn add_if_var(set: &mut ItemSet, global: &GlobalItem) -> Result<(), AllocError>
    ensures { OnOk result (set.new ≡ (if global.now.is_var then with_item set.old global.now.item else set.old)) }
{
    if global.is_var {
        set.add(global.item)?;
        return Ok(());
    }
    Ok(())
}

fn add_var_groups(set: &mut ItemSet, globals: &[GlobalItem]) -> Result<(), AllocError>
    ensures { OnOk result (set.new ≡ with_var_groups set.old (map global_of globals.now)) }
{
    for g in globals {
        add_if_var(set, g)?;
    }
    Ok(())
}

// What a routine with this list may use.
pub(crate) fn allowed_by(alloc: Global, globals: &[GlobalItem]) -> Result<Allowed, AllocError>
    ensures { IfOk result (λ a. allows a ≡ lists (map global_of globals.now)) }
{
    let mut all = ItemSet::new(alloc);
    add_globals(&mut all, globals)?;
    let mut var = ItemSet::new(alloc);
    add_var_groups(&mut var, globals)?;
    Ok(Allowed::Listed(all, var))
}

// The first item of a callee's list that may not be used so.
pub(crate) fn missing_item(allowed: &Allowed, globals: &[GlobalItem]) -> Option<Item>
    ensures { result ≡ missing_item (allows allowed.now) (map global_of globals.now) }
{
    for g in globals {
        if !allowed.may(g.item, g.is_var) {
            return Some(g.item);
        }
    }
    None
}
