//! Frames: programs whose routines use what their lists have, change nothing as functions, and whose calls keep roots apart.

mod framed_programs;
mod framing;

pub use framed_programs::Framed;
pub use framing::framed;
pub use spv_frame_check::Effects;
