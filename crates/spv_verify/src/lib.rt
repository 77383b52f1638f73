//! The verification of a text: from its bytes to the report, or to what the text is refused for.
#![tactic(auto)]

pub mod refused;
pub mod reporting;
pub mod texts;
pub mod tree_reports;
mod verifying;

pub use crate::refused::{Refusal, VerifyFault, Which};
pub use spv_reports::{Limits, Load, Mode, Report, default_limits, law_report};
pub use verifying::{law_not_both, list, recheck, report_of, simplify, verify};
