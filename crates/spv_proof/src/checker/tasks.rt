//! What a proof is checked against.

use spv_rules::Rules;
use spv_term::Condition;

/// What a proof is to show: a condition, under rules where there are some.
#[derive(Clone, Copy)]
pub(crate) struct Task<'a> {
    pub(crate) condition: &'a Condition,
    pub(crate) rules: Option<&'a Rules>,
}
