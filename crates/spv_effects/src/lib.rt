//! `frame_walk`: Frames: the walk over what routines use and call, to the first fault.
//! `frame_laws`: What is proved of the walk over what routines use and call.
//! `frame_events`: What statements and annotations use and call, gathered in the order of the text.
//! `mod_sets`: The variables and classes that a statement may change, in the order of declaration.
#![tactic(auto)]

pub mod frame_events;
pub mod frame_laws;
pub mod frame_walk;
pub mod mod_sets;
