//! The terms of typed formulas, and of typed expressions and places, with variables in the place of their outermost calls,
//! written head by head in postfix order, and made in the arena.

mod calls;
mod classes;
mod expressions;
mod formulas;
mod heads;
mod laws;
mod making;
mod outer_calls;
mod writing;

pub use calls::{has_no_calls, place_has_no_calls};
pub use laws::{law_calls, law_gathered, law_makeable, law_names, law_valued};
pub use making::{
    exit_formula_term, expression_term, filled_place_term, filled_term, formula_term, place_term,
};
pub use writing::{
    write_exit_formula, write_expression, write_filled, write_filled_place, write_formula,
    write_place,
};
