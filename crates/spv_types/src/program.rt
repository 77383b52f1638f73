// Programs that are well typed.

ghost use Rattle.std.specs.Prelude.{◌≡◌, IsTrue};
ghost use Rattle.spv_program.specs.Typing.{well_typed};

use spv_program::typed::Program;
use std::marker::Model;

/// A program with each name resolved, which is well typed.
#[derive(Drop)]
pub struct Typed {
    program: Program,
}

impl Model for Typed {
    ghost use Rattle.std.specs.Prelude.{IsTrue};
    ghost use Rattle.spv_program.specs.Programs as plain;
    ghost use Rattle.spv_program.specs.Typing.{well_typed};
    ghost use Rattle.std.specs.Coded.{codes};
    ghost use Rattle.spv_logic.specs.list.Ways.{coded_by};
    ghost use Rattle.spv_program.specs.typed.Model.FormulaCodes.{way_formula};
    ghost use Rattle.spv_program.specs.typed.Model.StatementCodes.{way_statement};

    ghost Value = { plain.Program };

    ghost coded = { Prim.hlevel (codes, coded_by way_formula, coded_by way_statement) };

    ghost view = { λ t. t.program };

    ghost invariant = { λ t. IsTrue (well_typed t.program) };
}

impl Typed {
    // A program that is well typed.
    pub(crate) fn of(program: Program) -> Typed
        requires { IsTrue (well_typed program) }
        ensures { result ≡ program }
    {
        Typed { program }
    }

    /// The program.
    pub fn program(&self) -> &Program
        ensures { result.now ≡ self.now }
    {
        &self.program
    }

    /// The program is well typed.
    pub fn law_well_typed(&self)
        ensures { IsTrue (well_typed self.now) }
    {
        let _ = &self.program;
    }
}
