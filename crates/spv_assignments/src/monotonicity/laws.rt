// What is true of the values that facts give as they become more, as the contract of a function that does nothing.

ghost use Rattle.spv_assignments.specs.monotonicity.Laws.{CitedHaveValues, LiteralsGiveValues, LiteralsGrow, OrdersMakeFalse, OverGrows, UncrossedGrow, ValuesGiveLiterals, ValuesGrow, ValuesHaveReasons, ValuesOfCores};

/// Facts stay literals that agree, uncrossed, and over an arena with a further one that fits, and what has a value keeps it. A term has the
/// value of its core, or the opposite one. A core has a value because a fact says so, or facts give an order of the sides of an equation; and
/// what a fact says is a value, as is that the equation of the sides of an order is false.
pub fn law_known_growth()
    ensures literals { LiteralsGrow }
    ensures uncrossed { UncrossedGrow }
    ensures over { OverGrows }
    ensures values { ValuesGrow }
    ensures cores { ValuesOfCores }
    ensures given { LiteralsGiveValues }
    ensures taken { ValuesGiveLiterals }
    ensures reasons { ValuesHaveReasons }
    ensures cited { CitedHaveValues }
    ensures orders { OrdersMakeFalse }
{}
