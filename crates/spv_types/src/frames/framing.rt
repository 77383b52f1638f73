// Programs against the rules of frames.

ghost use Rattle.std.specs.Prelude.{◌≡◌, IfOk, IfErr, None};
ghost use Rattle.spv_effects.specs.frame_walk.FrameWalk.{frame_fault};
ghost use Rattle.spv_frame_check.specs.Answers.{Stops};

use crate::Typed;
use crate::frames::framed_programs::Framed;
use spv_effects::frame_walk::FrameFault;
use spv_frame_check::checked;
use std::alloc::Global;

/// The program with what each of its routines reads and writes, where the walk over frames meets no fault; else the first
/// fault of the walk. Memory: there was not enough of it.
pub fn framed(alloc: Global, typed: Typed) -> Result<Framed, FrameFault>
    ensures program { IfOk result (λ f. f.program ≡ typed) }
    ensures ok { IfOk result (λ f. frame_fault typed ≡ None) }
    ensures err { IfErr result (λ e. Stops e (frame_fault typed)) }
{
    typed.law_well_typed();
    let effects = checked(typed.program(), alloc)?;
    Ok(Framed::of(typed, effects))
}
