//! Reports: a program's conditions, and where verdicts are wanted what was decided of each.
#![tactic(auto)]

mod headings;
mod limits;
mod mode;
mod report;
mod verdicts;

pub use headings::routine_name;
pub use limits::default_limits;
pub use mode::{Load, Mode};
pub use report::{ProgramNames, Report, law_report};
pub use spv_verdicts::answers::{Decided, Limit, Limits, Unproved, Verdict, Wide};
pub use verdicts::{all_proved, fails, is_not_accepted, is_proved, is_unproved, none_fails};
