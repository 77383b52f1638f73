// What is true of bounds, each law the contract of a function that does nothing.

ghost use Rattle.spv_arithmetic_side.specs.bounds.Laws.{LowerIsFound, UpperIsFound};

/// The bounds of the code are those that are found on the two sides of the row.
pub fn law_sides()
    ensures lower { LowerIsFound }
    ensures upper { UpperIsFound }
{}
