//! Frames: the walk over what routines use and call, to the first fault.
//!
//! The walk is a definition (in `specs/`), in the order of the text.

pub mod faults;

pub use faults::FrameFault;
