//! Programs that the walk over names and types answers are well typed.

ghost use Rattle.spv_type_soundness.specs.well_typed_programs.Statements.{StatementsAreWellTyped};
ghost use Rattle.spv_type_soundness.specs.well_typed_programs.Programs.{DeclarationsAreRight, RoutinesAreWellTyped, ProgramsAreWellTyped, FormulaTextsAreWellTyped};

/// A block that the walk answers is well typed, where the names of its place are those of the program.
pub fn law_statements()
    ensures { StatementsAreWellTyped }
{}

/// The declarations of a text are right in the program that they make.
pub fn law_declarations()
    ensures { DeclarationsAreRight }
{}

/// Each routine that the walk answers is well typed in the whole program.
pub fn law_routines()
    ensures { RoutinesAreWellTyped }
{}

/// A program that the walk answers is well typed, and so is the program of a formula text.
pub fn law_programs()
    ensures programs { ProgramsAreWellTyped }
    ensures formula_texts { FormulaTextsAreWellTyped }
{}
