// A program with the sorts of its variables at hand.

ghost use Rattle.std.specs.Prelude.{◌≡◌, IfOk};
ghost use Rattle.spv_program.specs.Scopes.{with_sorts_of};
ghost use Rattle.spv_expression_terms.specs.term_walk.Laws.{HasNamesOf};

use crate::body_tables::add_names;
use spv_logic::Sort;
use spv_program::ordered_map::Named;
use spv_program::typed::Program;
use std::alloc::{AllocError, Global};
use std::marker::Model;

/// A typed program, and the sorts of its variables, which all of its bodies look up. Contracts see the program.
#[derive(Drop)]
pub struct IndexedProgram<'p> {
    program: &'p Program,
    sorts: Named<Sort>,
}

impl<'p> Model for IndexedProgram<'p> {
    ghost use Rattle.spv_program.specs.Programs as plain;
    ghost use Rattle.spv_program.specs.Scopes.{with_sorts_of};
    ghost use Rattle.spv_expression_terms.specs.term_walk.Laws.{HasNamesOf};

    ghost Value = { plain.Program };

    ghost use Rattle.std.specs.Coded.{codes};
    ghost use Rattle.spv_logic.specs.list.Ways.{coded_by};
    ghost use Rattle.spv_program.specs.typed.Model.FormulaCodes.{way_formula};
    ghost use Rattle.spv_program.specs.typed.Model.StatementCodes.{way_statement};

    ghost coded = { Prim.hlevel (codes, coded_by way_formula, coded_by way_statement) };

    ghost view = { λ i. i.program.now };

    ghost invariant = { λ i. HasNamesOf i.sorts (with_sorts_of i.program.now i.program.now.variables) };
}

impl<'p> IndexedProgram<'p> {
    /// A program with the sorts of its variables.
    pub fn new(alloc: Global, program: &'p Program) -> Result<IndexedProgram<'p>, AllocError>
        ensures { IfOk result (λ indexed. indexed ≡ program.now) }
    {
        let mut sorts = Named::new(alloc);
        add_names(
            &mut sorts,
            program.forms.as_slice(),
            program.variables.as_slice(),
        )?;
        Ok(IndexedProgram { program, sorts })
    }

    /// The program.
    pub fn program(&self) -> &Program
        ensures { result.now ≡ self.now }
    {
        self.program
    }

    /// The sorts of its variables.
    pub fn sorts(&self) -> &Named<Sort>
        ensures { HasNamesOf result.now (with_sorts_of self.now self.now.variables) }
    {
        &self.sorts
    }
}
