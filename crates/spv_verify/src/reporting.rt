//! The report on a program is made: its conditions, and where verdicts are wanted what is decided of each.

mod deciding;
mod lengths;
mod making;
mod rounds;

pub use making::report_on;
