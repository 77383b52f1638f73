// Why a program's routines and calls do not fit together.

ghost use Rattle.std.specs.Prelude.{◌≡◌};
ghost use Rattle.spv_effects.specs.declared.frame_walk.faults.FrameFault.TheVariants.{Memory};

use spv_logic::names::Symbol;
use spv_program::Item;
use std::alloc::AllocError;

/// The first thing in the order of the text that breaks a rule of frames. The first number is the line.
#[derive(Clone, Copy, PartialEq, Eq, Debug)]
pub enum FrameFault {
    /// Two roots meet at a call: those of two VAR arguments, or that of a VAR argument and an item of the callee's list.
    Alias(u32, Item, Item),
    /// An item is used, or is used by a callee, in a way that the routine's GLOBAL list does not allow.
    GlobalMissing(u32, Item),
    /// The function of this name has a VAR parameter or a VAR group in its GLOBAL list.
    FunctionWrites(u32, Symbol),
    /// The memory was not enough.
    Memory,
}

impl From<AllocError> for FrameFault {
    ghost from_gives = { λ _ fault. fault ≡ Memory };

    fn from(_refused: AllocError) -> FrameFault {
        FrameFault::Memory
    }
}
