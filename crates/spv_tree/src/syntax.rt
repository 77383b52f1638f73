//! The trees of programs, rule files and formula texts, and their tokens.

mod declarations;
mod formula_texts;
mod formulas;
mod lists;
mod names;
mod operators;
mod programs;
mod routines;
mod rules;
mod statements;
mod types;

pub use declarations::{Const, Declarations, NameOrClass, SortName, SymbolText, Typedef, Vars};
pub use formula_texts::FormulaText;
pub use formulas::{
    Application, Designator, Factor, FactorForm, Formula, FormulaForm, Implication, Relation,
    Selector, SelectorForm, Simple, Term,
};
pub use lists::{Several, in_box, items};
pub use names::{Constant, Name, Scalar};
pub use operators::{Adding, Comparison, Direction, Multiplying, PlusOrMinus};
pub use programs::Program;
pub use routines::{
    Clauses, GlobalGroup, Group, GroupForm, Heading, HeadingForm, Item, Locals, Params,
    RoutineMark, Start,
};
pub use rules::{Rule, RuleForm, RuleTree, RuleVars};
pub use statements::{Arm, Block, Loop, LoopForm, Statement, StatementForm};
pub use types::{Field, TypeDenoter, TypeForm};
