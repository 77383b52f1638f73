//! Steps of the walk that makes conditions: terms under the limit of the arena, and lists of conditions under theirs.

mod labels;
mod lists;
mod making;
mod operators;
mod renaming;
mod replacing;

pub use labels::is_label;
pub use lists::{assumed, joined};
pub use making::{limited, made};
pub use operators::{binary, negated, next_value, numeral, over_numeral, past_end, within_end};
pub use renaming::fresh_pair;
pub use replacing::replaced;
