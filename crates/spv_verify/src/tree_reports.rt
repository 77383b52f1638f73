//! The report of a text's tree: the walks over names, types and frames, then the rules of a rule file, then a listing, and then the report of
//! the program.

mod arenas;
mod listings;
mod rule_files;
mod walks;

pub use walks::report_of;
