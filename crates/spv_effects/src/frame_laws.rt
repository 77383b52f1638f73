//! What is proved of the walk over what routines use and call.

ghost use Rattle.spv_effects.specs.frame_laws.Laws.{EventsAreUsesAndCalls, FaultsHaveCauses, FramedWithoutFault};

/// What the walk goes over is what the rules speak of: the uses and the calls of each routine, and the calls of the main block.
#[tactic(auto, using(crate::proofs::frame_laws::Parts::events_are))]
pub fn law_events()
    ensures { EventsAreUsesAndCalls }
{}

/// The walk meets no fault exactly where the rules hold.
#[tactic(auto, using(crate::proofs::frame_laws::Framed::framed_is))]
pub fn law_framed()
    ensures { FramedWithoutFault }
{}

/// The first fault names what breaks a rule of its kind, and its line.
#[tactic(auto, using(crate::proofs::frame_laws::Causes::faults_have_causes))]
pub fn law_causes()
    ensures { FaultsHaveCauses }
{}
