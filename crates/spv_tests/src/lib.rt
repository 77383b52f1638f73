//! `course_tests`: What no clause says of courses: that they do not give up.
//! `flat`: The tokens of trees, for tests that compare them with what was read.
//! `io_tests`: What no clause of `spv_io` says: an output that takes less than it is given, and a reader that breaks in the middle.
//! `reasons_tests`: What no clause says of reasons: that they do not give up.
//! `text_tests`: What no clause says of texts: what is read, typed and framed.
#![tactic(auto)]

pub mod course_tests;
pub mod flat;
pub mod io_tests;
pub mod reasons_tests;
pub mod text_tests;
