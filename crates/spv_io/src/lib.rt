//! The outside: texts that are read by name, and a sink that is written.
//!
//! [`Texts`] and [`Sink`] count their faults. [`MemoryTexts`] and [`MemorySink`] hold all that is
//! told of them in memory and fail where they are asked to; [`FileTexts`] and [`StdSink`] are the
//! real files and the standard output, of whose bytes nothing is claimed.
#![tactic(auto)]

mod fault;
mod file_texts;
mod memory_sink;
mod memory_texts;
mod sink;
mod std_sink;
mod texts;

pub use fault::{Failed, TextFault};
pub use file_texts::{FileTexts, first_bytes};
pub use memory_sink::MemorySink;
pub use memory_texts::MemoryTexts;
pub use sink::Sink;
pub use std_sink::StdSink;
pub use texts::Texts;
