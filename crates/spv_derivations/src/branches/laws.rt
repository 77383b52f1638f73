// What is true of the facts of a path, each law the contract of a function that does nothing.

ghost use Rattle.spv_derivations.specs.branches.Laws.{BeginsEmpty, CasesComeBehind, DerivationsCloseIn, FirstArePath, StepsAreIn, StepsComeBehind, StepsClose};

/// A path begins without facts; a case, or the fact of a step, comes behind the others; its first facts are a path; and steps that close it
/// behind all its facts close it behind its cases, with the steps of its other facts before them. The terms that the steps of a path name
/// are in the arena, and so are those of the closing steps of a derivation.
pub fn law_path()
    ensures begins { BeginsEmpty }
    ensures cases { CasesComeBehind }
    ensures steps { StepsComeBehind }
    ensures first { FirstArePath }
    ensures closes { StepsClose }
    ensures within { StepsAreIn }
    ensures derivations { DerivationsCloseIn }
{}
