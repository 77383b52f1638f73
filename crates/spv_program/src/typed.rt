//! Typed programs as the code has them: each name resolved, and contracts see them as the plain programs of `spv_program`.

mod expressions;
mod formulas;
mod programs;
mod statements;

pub use expressions::{Argument, Call, Designator, Expression, ExpressionForm, Selector, Through};
pub use formulas::{Annotation, Formula, FormulaForm};
pub use programs::{Formal, GlobalItem, Main, Program, Routine};
pub use statements::{Arm, Counting, Statement, StatementForm};
