// Rules with each name resolved.

use spv_logic::Sort;
use spv_program::ordered_map::Named;
use spv_program::typed::Formula;

/// What a rule says.
#[derive(Drop)]
pub enum RuleForm {
    /// The left side equals the right side, which is of the same sort.
    Replace(Formula, Formula),
    /// A formula, which is a truth value.
    Infer(Formula),
}

/// A rule with each name resolved.
#[derive(Drop)]
pub struct TypedRule {
    /// What it says.
    pub form: RuleForm,
    /// Under which condition, where there is one: a truth value.
    pub guard: Option<Formula>,
    /// The variables of its trigger with their sorts, each once, in the order in which the text of the trigger first has them.
    pub variables: Named<Sort>,
}

// What a rule says, and under which condition.
#[derive(Drop)]
pub(crate) struct Said {
    pub(crate) form: RuleForm,
    pub(crate) guard: Option<Formula>,
}
