//! Refusals: why a text is refused, on which line, and what is told behind it.

mod details;
mod fault;
mod refusal;
mod told;

pub(crate) use fault::fault_of;
pub use fault::{TextFault, VerifyFault, Which};
pub use refusal::Refusal;
pub use told::{of_frames, of_limits, of_listing, of_rules, of_text, of_types};
