//! What a statement changes among the variables that the FORs around it count with.

mod changes;
mod counted;
mod works;

pub use changes::{
    changed_by_assignment, changed_by_call, changed_by_creation, changed_by_head, changed_by_test,
};
pub use counted::{is_counted, is_own};
