// What is true of bodies, as contracts of functions that do nothing.

ghost use Rattle.std.specs.Prelude.{◌≡◌, IsTrue};
ghost use Rattle.spv_term.specs.Arena.{Arena};
ghost use Rattle.spv_program.specs.Programs.{Program, shapes};
ghost use Rattle.spv_program.specs.Typing.{well_typed};
ghost use Rattle.spv_flow_parts.specs.declared.bodies.Body.{Body};
ghost use Rattle.spv_flow_parts.specs.Standing.{IsBody, Stands};

/// A body of a well typed program, with an arena that has the types and symbols of the program, is one whose statements
/// conditions are made for.
pub fn law_stands()
    ensures { (p : Program) (b : Body) (a : Arena) → IsTrue (well_typed p) → IsBody p b → a.shapes ≡ shapes p → a.decls ≡ p.symbols → Stands p b a }
{}
