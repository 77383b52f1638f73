// Rule files.

use crate::syntax::declarations::SortName;
use crate::syntax::formulas::Formula;
use crate::syntax::lists::Several;
use crate::syntax::names::Name;
use spv_logic::list::List;

/// `names ":" sort ";"`
#[derive(Drop)]
pub struct RuleVars {
    /// The line of its first token.
    pub line: u32,
    /// The variables.
    pub names: Several<Name>,
    /// Their sort.
    pub sort: SortName,
}

/// What a rule is, without the sign that ends it.
#[derive(Drop)]
pub enum RuleForm {
    /// `REPLACE formula BY formula [WHERE formula]`
    Replace(Formula, Formula, Option<Formula>),
    /// `INFER formula [FROM formula]`
    Infer(Formula, Option<Formula>),
}

/// `REPLACE formula BY formula [WHERE formula] ";" | INFER formula [FROM formula] ";"`
#[derive(Drop)]
pub struct Rule {
    /// The line of its first token.
    pub line: u32,
    /// What it is.
    pub form: RuleForm,
}

/// `[VAR rvars {rvars}] {rule}`; no variables is that VAR is not there.
#[derive(Drop)]
pub struct RuleTree {
    /// The line of its first token, or 1 where there is none.
    pub line: u32,
    /// Behind VAR.
    pub variables: List<RuleVars>,
    /// The rules.
    pub rules: List<Rule>,
}
